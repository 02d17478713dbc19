// The pairs of a variable, as the row of an equation that names the variable sees them.
#![tactic(auto)]

ghost use Rattle.std.specs.Prelude.{◌≡◌, ◌&&◌, ◌<◌, length};
ghost use Rattle.lists.specs.Lists.{some_below};
ghost use Rattle.engine_shift.specs.Adds.{Adds};
ghost use Rattle.engine_shift.specs.Seeds.{odd_at, gone_to, was_not};

// Their values and their marks, a place for each state, and whether they are of an earlier block.
#[derive(Clone, Copy)]
pub struct Row<'a> {
    pub values: &'a [u8],
    pub marks: &'a [u8],
    pub earlier: bool,
    pub ghost even: { length marks.now ≡ length values.now },
}

impl Row<'_> {
    // Has anything turned for good in the row? No mark of it is odd where nothing has.
    fn odd(self) -> bool
        ensures { result ≡ some_below (length self.entry.marks.now) (λ s. odd_at self.entry.marks.now s) }
    {
        let mut odd = false;
        for mark in self.marks {
            odd |= *mark % 2 == 1;
        }
        odd
    }

    // Is it of an earlier block, and has anything of it turned for good?
    pub fn may_have_gone(self) -> bool
        ensures { result ≡ (self.entry.earlier && some_below (length self.entry.marks.now) (λ s. odd_at self.entry.marks.now s)) }
    {
        self.earlier && self.odd()
    }

    // Did the pair at the state s go to b?
    pub fn went(self, s: usize, b: u8) -> bool
        requires { s < length self.values.now }
        ensures { result ≡ gone_to self.entry.values.now self.entry.marks.now b s }
    {
        (self.marks[s] % 2 == 1) & (self.values[s] == b)
    }

    // Was the old value of the pair at the state s not b? Pairs of an earlier block have it turned round where the mark is odd.
    pub fn was_not(self, s: usize, b: u8) -> bool
        requires { s < length self.values.now }
        ensures { result ≡ was_not self.entry.values.now self.entry.marks.now self.entry.earlier b s }
    {
        let has = self.values[s] == b;
        if self.earlier & (self.marks[s] % 2 == 1) {
            return has;
        }
        !has
    }

    // Adds the places at which the row went to b.
    pub fn add_gone(self, b: u8, bad: &mut [u8])
        requires { length bad.old ≡ length self.values.now }
        ensures { Adds (λ s. gone_to self.entry.values.now self.entry.marks.now b s) bad.old bad.new }
    {
        for (s, place) in bad.iter_mut().enumerate() {
            *place = ((*place == 1) | self.went(s, b)) as u8;
        }
    }
}
