// The lines that the program prints, written into a lent room of bytes.
#![tactic(auto)]

ghost use Rattle.std.specs.Prelude.{◌≡◌, ◌+◌, ◌++◌, ◌≤◌, ◌<◌, length};
ghost use Rattle.program_lines.specs.Lines.{decimal, signed, net_text, totals, loaded_line, batch_line, refused_line};
ghost use Rattle.program_lines.specs.Penned.{Penned};

use rules::Visits;

// A room of bytes and the place in it where the next bytes go.
#[derive(Drop)]
pub struct Pen<'a> {
    pub out: &'a mut [u8],
    pub at: usize,
}

// The numbers at the end of a line: how many pairs are true, of how many, and the stamp.
#[derive(Clone, Copy, Debug, PartialEq, Eq)]
pub struct Totals {
    pub trues: u64,
    pub pairs: u64,
    pub stamp: u64,
}

// What each function puts is not printed by `write!`, which may fail by its contract: a line cannot (`put_loaded`, specs/Penned). Each
// asks for a bound of its own on the place: a piece of a line begins further on than the piece before, so no one bound holds of all pens.
impl Pen<'_> {
    // A text.
    fn put_text(&mut self, text: &[u8])
        requires { (self.old.at < 10000000) × (length text.now ≤ 20) }
        ensures { Penned self.old text.now self.new }
    {
        for (i, b) in text.iter().enumerate() {
            rooms::put(self.out, self.at + i, *b);
        }
        self.at += text.len();
    }

    // A number in decimal.
    fn put_decimal(&mut self, n: u64)
        requires { self.old.at < 10000000 }
        ensures { Penned self.old (decimal n) self.new × (self.new.at ≤ self.old.at + 20) }
    {
        let mut text = [0u8; 20];
        let k = io::decimal(n, &mut text);
        self.put_text(&text[..k]);
    }

    // A number that may lie below zero.
    fn put_signed(&mut self, z: i32)
        requires { self.old.at < 5000000 }
        ensures { Penned self.old (signed z) self.new × (self.new.at ≤ self.old.at + 21) }
    {
        if z < 0 {
            self.put_text(b"-");
        }
        self.put_decimal(u64::from(z.unsigned_abs()));
    }

    // A text, and a number after it.
    fn put_number(&mut self, text: &[u8], n: u64)
        requires { (self.old.at < 4000000) × (length text.now ≤ 20) }
        ensures { Penned self.old (text.now ++ decimal n) self.new × (self.new.at ≤ self.old.at + 40) }
    {
        self.put_text(text);
        self.put_decimal(n);
    }

    // The end of a line.
    fn put_totals(&mut self, end: Totals)
        requires { self.old.at < 3000000 }
        ensures { Penned self.old (totals end.trues end.pairs end.stamp) self.new }
    {
        self.put_number(b"true ", end.trues);
        self.put_number(b" of ", end.pairs);
        self.put_number(b" stamp ", end.stamp);
        self.put_text(b"\n");
    }

    // The line of a load.
    pub fn put_loaded(&mut self, end: Totals)
        requires { self.old.at < 2000000 }
        ensures { Penned self.old (loaded_line end.trues end.pairs end.stamp) self.new }
    {
        self.put_text(b"loaded ");
        self.put_totals(end);
    }

    // The line of a refusal.
    pub fn put_refused(&mut self, number: u64, place: u64)
        requires { self.old.at < 2000000 }
        ensures { Penned self.old (refused_line number place) self.new }
    {
        self.put_number(b"refused ", number);
        self.put_number(b" at ", place);
        self.put_text(b"\n");
    }

    // The first half of the line of a batch.
    fn put_net(&mut self, net: i32)
        requires { self.old.at < 3000000 }
        ensures { Penned self.old (net_text ++ signed net) self.new × (self.new.at ≤ self.old.at + 40) }
    {
        self.put_text(b"batch net ");
        self.put_signed(net);
    }

    // The line of a batch.
    pub fn put_batch(&mut self, net: i32, visits: Visits, end: Totals)
        requires { self.old.at < 2000000 }
        ensures { Penned self.old (batch_line net visits.shift visits.settle end.trues end.pairs end.stamp) self.new }
    {
        self.put_net(net);
        self.put_number(b" visits ", u64::from(visits.shift));
        self.put_number(b" ", u64::from(visits.settle));
        self.put_text(b" ");
        self.put_totals(end);
    }
}
