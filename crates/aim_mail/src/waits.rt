//! What is sent and received under a rule, tried again until it is done.
ghost use Rattle.crossbeam_channel.specs.Claims.{view, IsSeatAt};
ghost use Rattle.crossbeam_channel.specs.Ends.{sends_on, receives_on, ruled_capacity};
ghost use Rattle.crossbeam_channel.specs.Fifo.{Pushes, Pops, Learns};

use crossbeam_channel::protocol::{Lesson, Outcome, Protocol};
use crossbeam_channel::{Pass, RuledReceiver, RuledSender};
use std::sync::Wait;

/// Sends, and tries again where what it sends is handed back. It may wait for ever.
pub fn send_until<T: Drop, V, P: Protocol<T, V>, M: Outcome<T, V> + Lesson<T, V>, R: Wait>(
    rt: &R,
    sender: &RuledSender<T, V, P>,
    pass: &mut Pass<T, V>,
    mut said: T,
)
    requires seat { IsSeatAt (sends_on sender.now) pass.old }
    requires rule { Pushes P.holds (ruled_capacity (sends_on sender.now)) pass.old.id (view pass.old) said (M.then (view pass.old) said) × Learns P.holds pass.old.id (view pass.old) (M.fact (view pass.old)) }
    ensures seat { IsSeatAt (sends_on sender.now) pass.new }
    ensures rule { M.then (view pass.old) said (view pass.new) }
{
    for _ in rt.forever() {
        match sender.send_as::<M, R>(rt, pass, said) {
            Ok(()) => return,
            Err(e) => said = e.into_inner(),
        }
    }
    unreachable!()
}

/// Receives, and tries again where there was nothing. It may wait for ever.
pub fn receive_until<T: Drop, V, P: Protocol<T, V>, M: Outcome<T, V> + Lesson<T, V>, R: Wait>(
    rt: &R,
    receiver: &RuledReceiver<T, V, P>,
    pass: &mut Pass<T, V>,
) -> T
    requires seat { IsSeatAt (receives_on receiver.now) pass.old }
    requires rule { Pops P.holds pass.old.id (view pass.old) (M.then (view pass.old)) × Learns P.holds pass.old.id (view pass.old) (M.fact (view pass.old)) }
    ensures seat { IsSeatAt (receives_on receiver.now) pass.new }
    ensures rule { M.then (view pass.old) result (view pass.new) }
{
    for _ in rt.forever() {
        if let Ok(said) = receiver.recv_as::<M, R>(rt, pass) {
            return said;
        }
    }
    unreachable!()
}

/// Receives what tells nothing but that it came. It may wait for ever.
pub fn pass_over<T: Drop, V, P: Protocol<T, V>, M: Outcome<T, V> + Lesson<T, V>, R: Wait>(
    rt: &R,
    receiver: &RuledReceiver<T, V, P>,
    pass: &mut Pass<T, V>,
)
    requires seat { IsSeatAt (receives_on receiver.now) pass.old }
    requires rule { Pops P.holds pass.old.id (view pass.old) (M.then (view pass.old)) × Learns P.holds pass.old.id (view pass.old) (M.fact (view pass.old)) }
    ensures seat { IsSeatAt (receives_on receiver.now) pass.new }
    ensures rule { (x : T) × M.then (view pass.old) x (view pass.new) }
{
    receive_until::<T, V, P, M, R>(rt, receiver, pass);
}
