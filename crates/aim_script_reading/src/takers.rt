//! What takes the lines of one kind of script.

ghost use Rattle.std.specs.Prelude.{◌≡◌, List, true};
ghost use Rattle.aim_script_reading.specs.Taking.{Judged};
ghost use Rattle.aim_script_reading.specs.Rules.{Rules};

use std::alloc::Global;

/// Why a line was not taken.
pub enum Refusal<K, M, H> {
    /// It is at fault.
    Bad(K),
    /// It goes past a limit.
    Limit(M),
    /// The taker can't go on.
    Halt(H),
}

/// What takes the lines of one kind of script, one after another.
pub trait LineTaker {
    type Line;

    type Kind;

    type Limit;

    type Halt;

    /// What tells this kind of script from others.
    ghost rules: { Rules Self.Line Self.Kind Self.Limit };

    /// Since this first state, it came to stand for these lines, none of which decides.
    ghost stands: { Self → List Self.Line → Self → Type 0 };

    /// What is known, since this first state, behind these lines where one more was refused.
    ghost rests: { Self → List Self.Line → Self → Type 0 };

    /// What is known, since this first state, where it can't go on behind these lines.
    ghost halts: { Self → List Self.Line → Self → Self.Halt → Type 0 };

    /// Takes the bytes of the next line, without its byte 10, unless they decide.
    fn take(
        &mut self,
        alloc: Global,
        bytes: &[u8],
    ) -> Result<(), Refusal<Self::Kind, Self::Limit, Self::Halt>>
        requires { (first : Self) × (before : List Self.Line) × stands first before self.old }
        ensures { (first : Self) (before : List Self.Line) → stands first before self.old → Judged rules before bytes.now result (λ more. stands first more self.new) (rests first before self.new) (halts first before self.new) };

    /// Whether the lines so far make a whole script.
    fn is_whole(&self) -> bool
        requires { (first : Self) × (before : List Self.Line) × stands first before self.now }
        ensures { (first : Self) (before : List Self.Line) → stands first before self.now → result ≡ rules.is_whole before };

    /// What stands rests.
    ghost stands_rests: { (first : Self) (before : List Self.Line) (taker : Self) → stands first before taker → rests first before taker };
}
