// The zones of an MPE receiver (mpe.rs): the layout, the modes and the sensitivities, and what changes them.
#![tactic(auto)]

ghost use Rattle.std.specs.Prelude.{◌≡◌, ◌<◌};
ghost use Rattle.ump.specs.Outcome.{out_of_range, answered};
ghost use Rattle.mpe_zones.specs.Zones.{with_mono, mono_of, slot_of, with_sensitivities, sensitivity_at, sensitivity_put, zone_sensitivity, sensitivity_changed, activated, activated_if, zones_announced, announced_reply, role_held, with_zones_of, zones_set_reply, zones_set};
ghost use Rattle.mpe_zones.specs.Claims.{Activates};

use mpe_layout::{MpeLayout, MpeRole, MpeZone};
use mpe_pitch::MpeSensitivity;
use mpe_reset::{announcement_reset, layout_reset};
use parameter_event::{Parameter, ParameterChange, ParameterEvent};
use ump::controller::Rpn;
use ump::reply::OutOfRange;

// The zones of a receiver: the layout, and the mode and the sensitivities of each zone.
#[derive(Clone, Copy, Debug, PartialEq, Eq)]
pub struct Zones {
    pub layout: MpeLayout,
    pub lower_mono: bool,
    pub upper_mono: bool,
    // Semitones and cents, by `slot`: the eight flat bytes of the receiver's own field, which is a part of End (bench_lent_c).
    pub sensitivity: [u8; 8],
}

// What `set_layout` and `announce` give.
#[derive(Clone, Copy, Debug, PartialEq, Eq)]
pub struct ZonesLayoutSet {
    pub zones: Zones,
    pub reply: Result<u16, OutOfRange>,
}

// Where a zone's manager or member sensitivity stands.
fn slot(zone: MpeZone, manager: bool) -> usize
    ensures { (result ≡ slot_of zone manager) × (result < 7) }
{
    match (zone, manager) {
        (MpeZone::Lower, true) => 0,
        (MpeZone::Lower, false) => 2,
        (MpeZone::Upper, true) => 4,
        (MpeZone::Upper, false) => 6,
    }
}

impl Zones {
    // The mode of a zone becomes 4 (mono) or 3.
    pub fn with_mono(self, zone: MpeZone, mono: bool) -> Zones
        ensures { result ≡ with_mono self zone mono }
    {
        match zone {
            MpeZone::Lower => Zones {
                lower_mono: mono,
                ..self
            },
            MpeZone::Upper => Zones {
                upper_mono: mono,
                ..self
            },
        }
    }

    // The mode of a zone is 4 (mono).
    pub fn is_mono(self, zone: MpeZone) -> bool
        ensures { result ≡ mono_of self zone }
    {
        match zone {
            MpeZone::Lower => self.lower_mono,
            MpeZone::Upper => self.upper_mono,
        }
    }

    // The manager's or the members' sensitivity of a zone is put.
    fn with_sensitivity(self, zone: MpeZone, manager: bool, to: MpeSensitivity) -> Zones
        ensures { result ≡ with_sensitivities self (sensitivity_put self.sensitivity (slot_of zone manager) to.semitones to.cents) }
    {
        let k = slot(zone, manager);
        let mut sensitivity = self.sensitivity;
        sensitivity[k] = to.semitones;
        sensitivity[k + 1] = to.cents;
        Zones {
            sensitivity,
            ..self
        }
    }

    // The values of a zone that is announced or set with members.
    #[tactic(auto, unfolding(crate::specs::Zones::activated))]
    fn activate(self, zone: MpeZone) -> Zones
        ensures { result ≡ activated self zone }
    {
        self.with_sensitivity(zone, true, MpeSensitivity::MANAGER_DEFAULT)
            .with_sensitivity(zone, false, MpeSensitivity::MEMBER_DEFAULT)
            .with_mono(zone, false)
    }

    fn activate_if(self, members: u8, zone: MpeZone) -> Zones
        ensures { result ≡ activated_if members self zone }
    {
        if 0 < members {
            self.activate(zone)
        } else {
            self
        }
    }

    // The layout changes, and each zone with members is activated.
    fn lay_out(self, layout: MpeLayout) -> Zones
        ensures { result ≡ with_zones_of self layout }
    {
        Zones { layout, ..self }
            .activate_if(layout.lower, MpeZone::Lower)
            .activate_if(layout.upper, MpeZone::Upper)
    }

    // The manager's or the members' sensitivity of a zone.
    pub fn sensitivity(self, zone: MpeZone, manager: bool) -> MpeSensitivity
        ensures { result ≡ zone_sensitivity self zone manager }
    {
        let k = slot(zone, manager);
        MpeSensitivity {
            semitones: self.sensitivity[k],
            cents: self.sensitivity[k + 1],
        }
    }

    // RPN 0: a change of the manager's or the members' sensitivity of a zone.
    pub fn change_sensitivity(self, zone: MpeZone, manager: bool, change: ParameterChange) -> Zones
        ensures { result ≡ sensitivity_changed self zone manager change }
    {
        let event = ParameterEvent {
            parameter: Parameter::Registered(Rpn::PitchBendSensitivity),
            change,
        };
        let MpeSensitivity { semitones, cents } = self.sensitivity(zone, manager);
        let value = event.apply(semitones as u16 * 128 + cents as u16);
        let to = MpeSensitivity {
            semitones: (value / 128) as u8,
            cents: (value % 128) as u8,
        };
        self.with_sensitivity(zone, manager, to)
    }

    // The role of a channel.
    pub fn role(self, channel: u8) -> MpeRole
        ensures { result ≡ role_held self.layout channel }
    {
        self.layout
            .role_compared(channel)
            .unwrap_or(MpeRole::NoZone)
    }

    // The zones as they are, and the answer out of range.
    fn declined(self) -> ZonesLayoutSet
        ensures { (answered result.reply ≡ out_of_range) × (result.zones ≡ self) }
    {
        ZonesLayoutSet {
            zones: self,
            reply: Err(OutOfRange),
        }
    }

    // A zone announcement. More than 15 members are out of range, and so is one where the layout held is illegal.
    #[tactic(auto, using(crate::proofs::Activation::announcing), unfolding(crate::specs::Zones::zones_announced, crate::specs::Zones::announced_reply))]
    pub fn announce(self, zone: MpeZone, members: u8) -> ZonesLayoutSet
        ensures reply { answered result.reply ≡ announced_reply self zone members }
        ensures zones { result.zones ≡ zones_announced self zone members }
        ensures activates { Activates }
    {
        if 15 < members {
            return self.declined();
        }
        let Ok(layout) = self.layout.with_mcm(zone, members) else {
            return self.declined();
        };
        let mask = announcement_reset(self.layout, layout, zone).unwrap_or(0);
        let zones = Zones { layout, ..self }.activate_if(members, zone);
        ZonesLayoutSet {
            zones,
            reply: Ok(mask),
        }
    }

    // A layout that the application sets. An illegal one is out of range.
    pub fn set_layout(self, layout: MpeLayout) -> ZonesLayoutSet
        ensures reply { answered result.reply ≡ zones_set_reply self layout }
        ensures zones { result.zones ≡ zones_set self layout }
    {
        if !layout.is_layout() {
            return self.declined();
        }
        let mask = layout_reset(self.layout, layout).unwrap_or(0);
        ZonesLayoutSet {
            zones: self.lay_out(layout),
            reply: Ok(mask),
        }
    }
}
