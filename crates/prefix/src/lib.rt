// Forms in prefix order: an element, and then the forms that are its parts.
#![tactic(auto)]

ghost use Rattle.std.specs.Prelude.{ℕ, ◌≡◌, ◌+◌, ◌≤◌, length, drop};
ghost use Rattle.prefix.specs.Forms.{Forms};

// Where the form that begins at `at` ends. `parts` says how many forms follow an element as its parts.
pub fn form_end<T: Copy, F: Fn(T) -> usize>(s: &[T], at: usize, parts: F) -> usize
    requires callable { F.IsAlwaysCallable parts }
    requires stands { (n : ℕ) × (at + n ≤ length s.now) × Forms (F.post parts) n (drop at s.now) 1 }
    ensures { (n : ℕ) → Forms (F.post parts) n (drop at s.now) 1 → result ≡ at + n }
{
    let mut i = at;
    let mut left: usize = 1;
    // No range: how many elements a form has shows only as they are read.
    while left > 0 {
        left = left - 1 + parts(s[i]);
        i += 1;
    }
    i
}
