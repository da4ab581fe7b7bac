// Items 90 and 91: the setup file of a course.
use crate::answer::{Answer, write_elements, write_into};
use crate::arguments::Item;
use crate::out::Out;
use crate::restatement_items::BYTE_BEFORE;
use settings::Settings;
use setup_reader::{setup_label, setup_settings};
use setup_writer::setup_bytes;

// S, with one number for each bend.
impl Answer for Settings {
    fn write(&self, out: &mut Out) {
        (self.layout, self.lower, self.upper).write(out);
        for k in 0..16 {
            out.byte(b' ');
            (self.pitch_bend[k], self.pressure[k], self.brightness[k]).write(out);
        }
    }
}

// Answers item 90.
fn read_file(file: &[u8], out: &mut Out) {
    let read = setup_settings(file);
    read.write(out);
    if read.is_ok() {
        write_elements(setup_label(file), out);
    }
}

// Answers item 91.
fn write_file(mut item: Item, out: &mut Out) {
    let settings = item.settings();
    let length = item.byte() as usize;
    let label = item.bytes(length);
    write_into(
        [BYTE_BEFORE; 512],
        item.two() as usize,
        |bytes| setup_bytes(settings, label, bytes),
        out,
    );
}

// Answers the item.
pub(crate) fn answer(mut item: Item, out: &mut Out) {
    match item.operation {
        0x90 => {
            let length = item.two() as usize;
            read_file(item.bytes(length), out);
        }
        _ => write_file(item, out),
    }
}
