// A run over a trace.
use crate::arguments::Item;
use crate::item::Reader;
use crate::out::Out;
use crate::states::States;
use crate::tokens::Unreadable;
use std::io::Stdout;

// The run between two reads: the states, the item that is being read, and the output.
#[derive(Drop)]
pub(crate) struct Run {
    states: States,
    reader: Reader,
    out: Out,
}

impl Run {
    pub(crate) fn new(to: Stdout) -> Run {
        Run {
            states: States::new(),
            reader: Reader::new(),
            out: Out::new(to),
        }
    }

    // Writes what is left: whether all could be written.
    pub(crate) fn finished(&mut self) -> bool {
        self.out.flush();
        self.out.is_well()
    }

    // Answers at what cannot be read.
    fn break_off(&mut self) {
        self.out.text(b"?\n");
    }

    // Answers at the input's end.
    pub(crate) fn end(&mut self) {
        if !self.reader.may_end() {
            self.break_off();
        }
    }

    // Answers the whole item.
    fn answer(&mut self) {
        self.states
            .answer(Item::of(self.reader.bytes()), &mut self.out);
        self.out.byte(b'\n');
        self.reader.begin();
    }

    // Answers the items of `text`, up to what cannot be read.
    fn answer_readable(&mut self, text: &[u8]) -> Result<(), Unreadable> {
        for c in text {
            if self.reader.read(*c)? {
                self.answer();
            }
        }
        Ok(())
    }

    // Answers the items of `text`: whether more is to be read.
    pub(crate) fn answer_all(&mut self, text: &[u8]) -> bool {
        match self.answer_readable(text) {
            Ok(()) => self.out.is_well(),
            Err(Unreadable) => {
                self.break_off();
                false
            }
        }
    }
}
