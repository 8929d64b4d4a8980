// Writing the lines of a table to a buffer.
ghost use Rattle.std.specs.Prelude.{[], ◌∷◌, decimal};
ghost use Rattle.std.specs.List.{flat_map};
ghost use Rattle.text.specs.Spelling.{spell, spot_text, mapping_text};
ghost use Rattle.text.specs.Writers.{Adds, HasRoom};

use crate::line::{Line, Mapping};
use crate::measure::digits;
use crate::spot::Spot;
use crate::words::{ERROR, LINEAR, STRIPED, ZERO};
use itoa::write_digits;

// A buffer, and the place in it from which the next bytes stand.
#[derive(Drop)]
pub(crate) struct Writer<'a> {
    pub buffer: &'a mut [u8],
    pub at: usize,
}

impl Writer<'_> {
    #[tactic(auto, using(crate::proofs::Adding::put_adds, std::proofs::lemmas::Slice::overwrites))]
    fn add(&mut self, more: &[u8])
        requires { HasRoom more.now self.old }
        ensures { Adds more.now self.old self.new }
    {
        let end = self.at + more.len();
        self.buffer[self.at..end].copy_from_slice(more);
        self.at = end;
    }

    fn byte(&mut self, byte: u8)
        requires { HasRoom (byte ∷ []) self.old }
        ensures { Adds (byte ∷ []) self.old self.new }
    {
        self.buffer[self.at] = byte;
        self.at += 1;
    }

    fn number(&mut self, n: u64)
        requires { HasRoom (decimal n) self.old }
        ensures { Adds (decimal n) self.old self.new }
    {
        let end = self.at + digits(n);
        let _start = write_digits(n, self.buffer, end);
        self.at = end;
    }

    // A space and a word.
    fn word(&mut self, word: &[u8])
        requires { HasRoom (32 ∷ word.now) self.old }
        ensures { Adds (32 ∷ word.now) self.old self.new }
    {
        self.byte(b' ');
        self.add(word);
    }

    // A space and a number.
    fn field(&mut self, n: u64)
        requires { HasRoom (32 ∷ decimal n) self.old }
        ensures { Adds (32 ∷ decimal n) self.old self.new }
    {
        self.byte(b' ');
        self.number(n);
    }

    // A space, MAJOR:MINOR, a space and SECTOR.
    fn spot(&mut self, spot: Spot)
        requires { HasRoom (spot_text spot) self.old }
        ensures { Adds (spot_text spot) self.old self.new }
    {
        self.field(spot.major);
        self.byte(b':');
        self.number(spot.minor);
        self.field(spot.sector);
    }

    fn spots(&mut self, columns: &[Spot])
        requires { HasRoom (flat_map spot_text columns.now) self.old }
        ensures { Adds (flat_map spot_text columns.now) self.old self.new }
    {
        for column in columns {
            self.spot(*column);
        }
    }

    // What the sectors of a line are mapped to, with a space before each field.
    fn mapping(&mut self, mapping: &Mapping)
        requires { HasRoom (mapping_text mapping.now) self.old }
        ensures { Adds (mapping_text mapping.now) self.old self.new }
    {
        match mapping {
            Mapping::Zero => self.word(ZERO),
            Mapping::Error => self.word(ERROR),
            Mapping::Linear(spot) => {
                self.word(LINEAR);
                self.spot(*spot);
            }
            Mapping::Striped { chunk, columns } => {
                self.word(STRIPED);
                self.field(columns.spots.len() as u64);
                self.field(*chunk);
                self.spots(&columns.spots);
            }
        }
    }

    // START, LENGTH, what is mapped to, and a line feed.
    #[tactic(auto, using(crate::proofs::Adding::spell_size))]
    pub(crate) fn line(&mut self, line: &Line)
        requires { HasRoom (spell line.now) self.old }
        ensures { Adds (spell line.now) self.old self.new }
    {
        self.number(line.start);
        self.field(line.length);
        self.mapping(&line.mapping);
        self.byte(b'\n');
    }
}
