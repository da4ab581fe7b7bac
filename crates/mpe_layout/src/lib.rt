// MPE zones, roles and layouts (mpe.rs).
#![tactic(auto)]

ghost use Rattle.std.specs.Prelude.{◌≡◌, ◌<◌, IfOk};
ghost use Rattle.ump.specs.Outcome.{given, answered};
ghost use Rattle.mpe_layout.specs.Layout.{no_zones, default_layout, legal, of_legal, members_of, other_zone, manager_of, active, place_of, role_at, role_of, lowest_or_none, left_beside, layout_for, new_layout, mcm_layout, role_given, member_found};
ghost use Rattle.mpe_layout.specs.Sheet.{HoldsPlaces};
ghost use Rattle.mpe_layout.specs.declared.MemberError.TheVariants as member_error;

use ump::reply::OutOfRange;

// One of the two zones (M1-100 2.2.1).
#[derive(Clone, Copy, Debug, PartialEq, Eq)]
pub enum MpeZone {
    // Manager channel 0, members from 1 up.
    Lower,
    // Manager channel 15, members from 14 down.
    Upper,
}

impl MpeZone {
    // The manager channel.
    pub fn manager(self) -> u8
        ensures { result ≡ manager_of self }
    {
        match self {
            MpeZone::Lower => 0,
            MpeZone::Upper => 15,
        }
    }

    fn other(self) -> MpeZone
        ensures { result ≡ other_zone self }
    {
        match self {
            MpeZone::Lower => MpeZone::Upper,
            MpeZone::Upper => MpeZone::Lower,
        }
    }
}

// The role of a channel in a layout (M1-100 1.5.1).
#[derive(Clone, Copy, Debug, PartialEq, Eq)]
pub enum MpeRole {
    // A conventional MIDI 1.0 channel.
    NoZone,
    Manager(MpeZone),
    Member(MpeZone),
}

// Where a channel stands to one zone.
#[derive(Clone, Copy, Debug, PartialEq, Eq)]
enum ZonePlace {
    Outside,
    AsManager,
    AsMember,
}

// An entry of the sheet: outside the zone.
const N: ZonePlace = ZonePlace::Outside;

// The zone's manager.
const G: ZonePlace = ZonePlace::AsManager;

// A member.
const M: ZonePlace = ZonePlace::AsMember;

// The sheet of places in a zone, as a bench sheet has it: a row for each member count, a column for each distance from the manager.
// N: outside the zone; G: its manager; M: a member.
//
//   distance
//   0  1  2  3  4  5  6  7  8  9 10 11 12 13 14 15      members
const SHEET: [[ZonePlace; 16]; 16] = [
    [N, N, N, N, N, N, N, N, N, N, N, N, N, N, N, N], // 0
    [G, M, N, N, N, N, N, N, N, N, N, N, N, N, N, N], // 1
    [G, M, M, N, N, N, N, N, N, N, N, N, N, N, N, N], // 2
    [G, M, M, M, N, N, N, N, N, N, N, N, N, N, N, N], // 3
    [G, M, M, M, M, N, N, N, N, N, N, N, N, N, N, N], // 4
    [G, M, M, M, M, M, N, N, N, N, N, N, N, N, N, N], // 5
    [G, M, M, M, M, M, M, N, N, N, N, N, N, N, N, N], // 6
    [G, M, M, M, M, M, M, M, N, N, N, N, N, N, N, N], // 7
    [G, M, M, M, M, M, M, M, M, N, N, N, N, N, N, N], // 8
    [G, M, M, M, M, M, M, M, M, M, N, N, N, N, N, N], // 9
    [G, M, M, M, M, M, M, M, M, M, M, N, N, N, N, N], // 10
    [G, M, M, M, M, M, M, M, M, M, M, M, N, N, N, N], // 11
    [G, M, M, M, M, M, M, M, M, M, M, M, M, N, N, N], // 12
    [G, M, M, M, M, M, M, M, M, M, M, M, M, M, N, N], // 13
    [G, M, M, M, M, M, M, M, M, M, M, M, M, M, M, N], // 14
    [G, M, M, M, M, M, M, M, M, M, M, M, M, M, M, M], // 15
];

// `SHEET` by a call.
fn sheet() -> [[ZonePlace; 16]; 16]
    ensures { HoldsPlaces result }
{
    SHEET
}

// The place at a distance from the manager of a zone with so many members, from the sheet.
fn place_listed(members: u8, distance: u8) -> ZonePlace
    requires { (members < 16) × (distance < 16) }
    ensures { result ≡ place_of members distance }
{
    sheet()[members as usize][distance as usize]
}

// The same place by comparisons. It returns where it knows: of one expression the compiler makes selects, and an offset that is read in no zone takes half as
// much time again (docs/BENCHMARKS.md).
#[tactic(auto, unfolding(crate::specs::Layout::place_of))]
fn place_compared(members: u8, distance: u8) -> ZonePlace
    ensures { result ≡ place_of members distance }
{
    if members == 0 {
        return ZonePlace::Outside;
    }
    if distance == 0 {
        return ZonePlace::AsManager;
    }
    if distance <= members {
        return ZonePlace::AsMember;
    }
    ZonePlace::Outside
}

// The role by the places in Lower and in Upper.
fn role_at(lower: ZonePlace, upper: ZonePlace) -> MpeRole
    ensures { result ≡ role_at lower upper }
{
    match (lower, upper) {
        (ZonePlace::AsManager, _) => MpeRole::Manager(MpeZone::Lower),
        (ZonePlace::AsMember, _) => MpeRole::Member(MpeZone::Lower),
        (ZonePlace::Outside, ZonePlace::AsManager) => MpeRole::Manager(MpeZone::Upper),
        (ZonePlace::Outside, ZonePlace::AsMember) => MpeRole::Member(MpeZone::Upper),
        (ZonePlace::Outside, ZonePlace::Outside) => MpeRole::NoZone,
    }
}

// What is left of a zone with `other` members when the other zone is given `members`.
#[tactic(auto, unfolding(crate::specs::Layout::left_beside))]
fn left_beside(members: u8, other: u8) -> u8
    ensures { result ≡ left_beside members other }
{
    match members {
        0 => other,
        1..=13 => other.min(14 - members),
        _ => 0,
    }
}

// The layout with `members` in `zone` and `other` in the other zone.
fn layout_for(zone: MpeZone, members: u8, other: u8) -> MpeLayout
    ensures { result ≡ layout_for zone members other }
{
    match zone {
        MpeZone::Lower => MpeLayout {
            lower: members,
            upper: other,
        },
        MpeZone::Upper => MpeLayout {
            lower: other,
            upper: members,
        },
    }
}

// A layout: the member count of each zone.
#[repr(C)]
#[derive(Clone, Copy, Debug, PartialEq, Eq)]
pub struct MpeLayout {
    pub lower: u8,
    pub upper: u8,
}

// What `lowest_member` declines by.
#[derive(Clone, Copy, Debug, PartialEq, Eq)]
pub enum MemberError {
    // The layout is not legal.
    OutOfRange,
    // The zone is inactive.
    NoMembers,
}

impl From<OutOfRange> for MemberError {
    ghost from_gives = { λ _ e. e ≡ member_error.OutOfRange };

    fn from(_refusal: OutOfRange) -> MemberError {
        MemberError::OutOfRange
    }
}

impl MpeLayout {
    // No zone.
    pub const NONE: Self = Self { lower: 0, upper: 0 };

    // Lower with 15 members (M1-100 2.2.2).
    pub const DEFAULT: Self = Self {
        lower: 15,
        upper: 0,
    };

    // `NONE` by a call.
    pub fn no_zones() -> MpeLayout
        ensures { result ≡ no_zones }
    {
        MpeLayout::NONE
    }

    // `DEFAULT` by a call.
    pub fn default_layout() -> MpeLayout
        ensures { result ≡ default_layout }
    {
        MpeLayout::DEFAULT
    }

    // A layout with these member counts.
    pub fn new(lower: u8, upper: u8) -> Result<MpeLayout, OutOfRange>
        ensures { answered result ≡ new_layout lower upper }
    {
        MpeLayout { lower, upper }.tested()
    }

    // The layout is one that `new` accepts: a zone has at most 15 members, and two active zones at most 14 in all.
    #[tactic(auto, unfolding(crate::specs::Layout::legal, crate::specs::Layout::legal_counts))]
    pub fn is_layout(self) -> bool
        ensures { result ≡ legal self }
    {
        let MpeLayout { lower, upper } = self;
        lower <= 15 && upper <= 15 && (lower == 0 || upper == 0 || lower + upper <= 14)
    }

    // The layout, if `new` accepts it.
    #[tactic(auto, unfolding(crate::specs::Layout::legal, crate::specs::Layout::legal_counts))]
    fn tested(self) -> Result<MpeLayout, OutOfRange>
        ensures tests { answered result ≡ of_legal self (given self) }
        ensures bounds { IfOk result (λ l. (l ≡ self) × (l.lower < 16) × (l.upper < 16)) }
    {
        if self.is_layout() {
            return Ok(self);
        }
        Err(OutOfRange)
    }

    fn count(self, zone: MpeZone) -> u8
        ensures { result ≡ members_of self zone }
    {
        match zone {
            MpeZone::Lower => self.lower,
            MpeZone::Upper => self.upper,
        }
    }

    // The member count of a zone.
    pub fn members(self, zone: MpeZone) -> Result<u8, OutOfRange>
        ensures { answered result ≡ of_legal self (given (members_of self zone)) }
    {
        Ok(self.tested()?.count(zone))
    }

    // The layout after an MPE Configuration Message.
    #[tactic(auto, unfolding(crate::specs::Layout::with_mcm))]
    pub fn with_mcm(self, zone: MpeZone, members: u8) -> Result<MpeLayout, OutOfRange>
        ensures { answered result ≡ mcm_layout self zone members }
    {
        let other = self.members(zone.other())?;
        if 15 < members {
            return Ok(self);
        }
        Ok(layout_for(zone, members, left_beside(members, other)))
    }

    // The role from the sheet: Lower counts its channels from 0 up, Upper from 15 down.
    #[tactic(auto, unfolding(crate::specs::Layout::role_of))]
    fn role_listed(self, channel: u8) -> MpeRole
        requires { (self.lower < 16) × (self.upper < 16) × (channel < 16) }
        ensures { result ≡ role_of self channel }
    {
        role_at(
            place_listed(self.lower, channel),
            place_listed(self.upper, 15 - channel),
        )
    }

    // The role of a channel, as the sheet lists it.
    pub fn role(self, channel: u8) -> Result<MpeRole, OutOfRange>
        ensures { answered result ≡ role_given self channel }
    {
        Ok(self.tested()?.role_listed(channel % 16))
    }

    // The role by comparisons: the place in Upper is looked for only where the channel is outside Lower.
    #[tactic(auto, unfolding(crate::specs::Layout::role_of))]
    fn role_in(self, channel: u8) -> MpeRole
        requires { channel < 16 }
        ensures { result ≡ role_of self channel }
    {
        match place_compared(self.lower, channel) {
            ZonePlace::AsManager => MpeRole::Manager(MpeZone::Lower),
            ZonePlace::AsMember => MpeRole::Member(MpeZone::Lower),
            outside => role_at(outside, place_compared(self.upper, 15 - channel)),
        }
    }

    // The role of a channel by comparisons, for the byte calls: each message asks for one. With `role` in this place the lent call takes 1.5 to 1.9 times its
    // instructions, and more than the Rust's, which is the bar that this keeps (docs/BENCHMARKS.md).
    pub fn role_compared(self, channel: u8) -> Result<MpeRole, OutOfRange>
        ensures { answered result ≡ role_given self channel }
    {
        Ok(self.tested()?.role_in(channel % 16))
    }

    // At least one zone is active.
    #[tactic(auto, unfolding(crate::specs::Layout::active))]
    pub fn is_active(self) -> Result<bool, OutOfRange>
        ensures { answered result ≡ of_legal self (given (active self.lower self.upper)) }
    {
        let layout = self.tested()?;
        Ok(0 < layout.lower || 0 < layout.upper)
    }

    // The lowest member of a zone, or none in a zone without members.
    pub fn lowest_member(self, zone: MpeZone) -> Result<u8, MemberError>
        ensures { member_found result ≡ of_legal self (lowest_or_none zone (members_of self zone)) }
    {
        match (zone, self.tested()?.count(zone)) {
            (_, 0) => Err(MemberError::NoMembers),
            (MpeZone::Lower, _) => Ok(1),
            (MpeZone::Upper, members) => Ok(15 - members),
        }
    }
}
