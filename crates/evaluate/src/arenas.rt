// Arenas of seven sizes, so that a call on a small table does not pay for a large one.
ghost use Rattle.std.specs.Prelude.{◌<◌};
ghost use Rattle.evaluate.specs.Judged.{Judged};
ghost use Rattle.evaluate.specs.Arenas.{Needs, Measured};

use crate::{GuardedRun, Inputs};

impl Inputs<'_> {
    // Evaluates in an arena of N cells. No call of it is inlined: the frame of `in_smallest_arena` would have the arenas of all sizes, and each
    // call would touch every page of the largest.
    #[inline(never)]
    fn in_arena<const N: usize>(&self) -> GuardedRun
        requires enough { Needs self.now.table.now self.now.values.now N }
        requires small { N < 65536 }
        ensures { Judged self.now.table.now self.now.values.now self.now.sheet.now self.now.budget result }
    {
        let mut s = [0u64; N];
        self.evaluate_in(&mut s)
    }

    // Evaluates in the smallest arena with room; the largest always has it.
    pub(crate) fn in_smallest_arena(&self, need: usize) -> GuardedRun
        requires { Measured self.now.table.now self.now.values.now need }
        ensures { Judged self.now.table.now self.now.values.now self.now.sheet.now self.now.budget result }
    {
        match need {
            0..=136 => self.in_arena::<136>(),
            137..=320 => self.in_arena::<320>(),
            321..=1024 => self.in_arena::<1024>(),
            1025..=1920 => self.in_arena::<1920>(),
            1921..=4480 => self.in_arena::<4480>(),
            4481..=12160 => self.in_arena::<12160>(),
            _ => self.in_arena::<18819>(),
        }
    }
}
