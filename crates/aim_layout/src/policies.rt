//! The policies of a layout.

ghost use Rattle.std.specs.Prelude.{◌≡◌, ◌<◌, ◌≤◌, ◌==◌, ◌||◌, not, nat_le, nat_lt, [], ◌∷◌, ◌++◌, length, slice_get, Some};
ghost use Rattle.aim_geometry.specs.Bounded.{is_outside};
ghost use Rattle.aim_layout.specs.Building.{lacks_phase as lacks_phase_of};
ghost use Rattle.aim_layout.specs.Policies.{has_lights as has_lights_of};

use std::marker::Model;

/// How requests are answered while the policy is in force.
#[derive(Clone, Copy)]
pub enum PolicyKind {
    /// FCFS: first come, first served.
    Fcfs,
    /// FCFS-EMERG: as FCFS, and vehicles give way where an emergency approaches.
    Emerg,
    /// FCFS-LIGHT: as FCFS, beside lanes that are green in turn.
    Light,
    /// FCFS-LIGHT and FCFS-EMERG at once: lanes are green in turn, and vehicles give way.
    LightEmerg,
}

/// A phase of lights: first red for all lanes, then green for some.
#[derive(Clone, Copy)]
pub struct Phase {
    /// The steps of red, from the layout's clearance to 65,536.
    pub red: u32,
    /// The steps of green, 1 to 65,536.
    pub green: u32,
    /// The lanes that are green. Bit i is lane i.
    pub lanes: u16,
}

impl PolicyKind {
    /// Whether policies of this kind have phases.
    pub fn has_lights(self) -> bool
        ensures { result ≡ has_lights_of self }
    {
        match self {
            PolicyKind::Light | PolicyKind::LightEmerg => true,
            PolicyKind::Fcfs | PolicyKind::Emerg => false,
        }
    }
}

/// A policy as a layout stores it, with room for 16 phases.
#[derive(Drop)]
pub(crate) struct StoredPolicy {
    kind: PolicyKind,
    phases: [Phase; 16],
    count: u8,
}

impl Model for StoredPolicy {
    ghost use Rattle.aim_layout.specs.Intersection.{Policy};

    ghost Value = { Policy };

    ghost use Rattle.std.specs.Prelude.{◌≡◌, ◌≤◌, length, take};

    ghost view = { λ p. record { kind = p.kind; phases = take p.count p.phases } };

    ghost invariant = { λ p. (p.count ≤ 16) × (length p.phases ≡ 16) };
}

impl StoredPolicy {
    /// A policy without a phase.
    pub(crate) fn new(kind: PolicyKind) -> StoredPolicy
        ensures { result ≡ record { kind = kind; phases = [] } }
    {
        let none = Phase {
            red: 0,
            green: 0,
            lanes: 0,
        };
        StoredPolicy {
            kind,
            phases: [none; 16],
            count: 0,
        }
    }

    /// The policy's kind.
    pub(crate) fn kind(&self) -> PolicyKind
        ensures { result ≡ self.now.kind }
    {
        self.kind
    }

    /// The number of phases.
    pub(crate) fn count(&self) -> u8
        ensures count { result ≡ length self.now.phases }
        ensures most { result ≤ 16 }
    {
        self.count
    }

    /// The phase of that number.
    pub(crate) fn phase(&self, number: u8) -> Phase
        requires { number < length self.now.phases }
        ensures { slice_get self.now.phases number ≡ Some result }
    {
        self.phases[number as usize]
    }

    /// Whether this is a light policy without a phase.
    pub(crate) fn lacks_phase(&self) -> bool
        ensures { result ≡ lacks_phase_of (Some self.now) }
    {
        let has_lights = self.kind.has_lights();
        has_lights && self.count == 0
    }

    /// Whether the policy takes no phase, or one of the phase's numbers is out of its range.
    pub(crate) fn refuses(&self, phase: Phase, clearance: u32) -> bool
        ensures { result ≡ (not (has_lights_of self.now.kind) || nat_le 16 (length self.now.phases) || nat_lt phase.red clearance || nat_lt 65536 phase.red || is_outside phase.green 65536 || phase.lanes == 0) }
    {
        let has_lights = self.kind.has_lights();
        !has_lights
            || self.count >= 16
            || phase.red < clearance
            || phase.red > 65_536
            || phase.green == 0
            || phase.green > 65_536
            || phase.lanes == 0
    }

    /// Adds a phase behind the others.
    pub(crate) fn add(&mut self, phase: Phase)
        requires { length self.old.phases < 16 }
        ensures { self.new ≡ record self.old { phases = self.old.phases ++ phase ∷ [] } }
    {
        self.phases[self.count as usize] = phase;
        self.count += 1;
    }

    /// An equal policy.
    pub(crate) fn copy(&self) -> StoredPolicy
        ensures { result ≡ self.now }
    {
        StoredPolicy {
            kind: self.kind,
            phases: self.phases,
            count: self.count,
        }
    }
}
