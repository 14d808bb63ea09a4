// Copying into a lent buffer and clearing inside it: of nodes (production numbers) and of sets (own sets and attribute sets) alike.
// `paste d at s n` is d with the first n of s in the place of its n elements from `at` on.
ghost use Rattle.std.specs.Prelude.{◌≡◌, ◌+◌, ◌≤◌, length, drop, replicate};
ghost use Rattle.std.proofs.Math.Seq.{paste};

// Copies `count` of those held, from `at` on, to `to`.
pub fn copy<T: Copy>(out: &mut [T], to: usize, held: &[T], at: usize, count: usize)
    requires out_in_bounds { to + count ≤ length out.old }
    requires held_in_bounds { at + count ≤ length held.now }
    ensures { out.new ≡ paste out.old to (drop at held.now) count }
{
    out[to..to + count].copy_from_slice(&held[at..at + count]);
}

// Writes `new` at `at`.
pub fn write<T: Copy>(held: &mut [T], at: usize, new: &[T])
    requires { at + length new.now ≤ length held.old }
    ensures { held.new ≡ paste held.old at new.now (length new.now) }
{
    copy(held, at, new, 0, new.len());
}

// Writes `zero` `count` times at `at`.
#[tactic(auto, using(crate::proofs::Pastes::one_more))]
pub fn clear<T: Copy>(held: &mut [T], zero: T, at: usize, count: usize)
    requires { at + count ≤ length held.old }
    ensures { held.new ≡ paste held.old at (replicate count zero) count }
{
    for x in &mut held[at..at + count] {
        *x = zero;
    }
}
