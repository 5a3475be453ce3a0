// What bytes are read from.
ghost use Rattle.std.specs.Prelude.{◌≡◌, ◌<◌, ◌≤◌, ℕ, List, [], Option, None, length, IfOk, IfSome};
ghost use Rattle.wse_path.specs.Causes.{HasCause};
ghost use Rattle.wse_io.specs.Stream.{Takes, read_by};

/// The source failed.
#[derive(Debug, Clone, Copy, PartialEq, Eq)]
pub struct ReadFailed;

/// A source of bytes. It may tell the bytes that are left, as one in memory does. Each source counts its faults: a read
/// fails only where the count rose in it.
pub trait Source {
    /// The bytes left, where they are told.
    ghost left: { Self → Option (List ℕ) } = { λ _. None };

    /// The bytes that were left when the last read began, where they are told.
    ghost left_before: { Self → Option (List ℕ) } = { λ _. None };

    /// How often it has failed.
    ghost faults: { Self → ℕ };

    /// Puts the next bytes at the front of `buf`, takes them away from those left, and answers how many. 0 for a buffer
    /// that isn't empty is the end of the input. A read that fails takes nothing.
    fn read(&mut self, buf: &mut [u8]) -> Result<usize, ReadFailed>
        ensures count { IfOk result (λ n. n ≤ length buf.old) }
        ensures taken { Takes (left self.old) (left self.new) (read_by result buf.new) }
        ensures began { left_before self.new ≡ left self.old }
        ensures ended { IfOk result (λ n. n ≡ 0 → 0 < length buf.old → IfSome (left self.new) (λ rest. rest ≡ [])) }
        ensures cause { HasCause (faults self.old) (faults self.new) result };
}
