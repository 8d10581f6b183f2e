//! The listeners of an output, and the telling of an answer to each of them.
ghost use Rattle.std.specs.Prelude.{◌≡◌, map, IsTrue};
ghost use Rattle.agg_listen.specs.Hearing.{Hearing, next_line};
ghost use Rattle.agg_listen.specs.Standing.{stays, having_heard, all_having_heard};

use crate::listener::{Keep, Listener, Told};
use std::marker::Model;

/// The listeners of an output, which are of one type, and the number of its next line.
#[derive(Drop)]
pub struct Audience<L: Listener> {
    listeners: Vec<L>,
    // The number of the next line.
    line: u64,
}

impl<L: Listener> Model for Audience<L> {
    ghost use Rattle.std.specs.Prelude.{map};
    ghost use Rattle.agg_listen.specs.Hearing.{Hearing};

    ghost Value = { Hearing };

    ghost view = { λ a. record { line = a.line; listeners = map (λ listener. L.standing listener) a.listeners.items } };
}

/// Tells one listener, and answers whether it stays.
fn is_kept<L: Listener>(listener: &mut L, told: Told) -> bool
    ensures stays { result ≡ stays (L.standing listener.old) }
    ensures heard { IsTrue result → L.standing listener.new ≡ having_heard told (L.standing listener.old) }
{
    listener.hear(told) == Keep::Stay
}

/// Tells each listener in turn, once. Those that leave are dropped, and the others stay in their order.
fn tell<L: Listener>(listeners: &mut Vec<L>, told: Told)
    ensures { map (λ listener. L.standing listener) listeners.new.items ≡ all_having_heard told (map (λ listener. L.standing listener) listeners.old.items) }
{
    let keeps = move |listener: &mut L| -> bool
        ensures stays { result ≡ stays (L.standing listener.entry.now) }
        ensures heard { IsTrue result → L.standing listener.exit.now ≡ having_heard told (L.standing listener.entry.now) }
    { is_kept(listener, told) };
    listeners.retain_mut(keeps);
}

impl<L: Listener> Audience<L> {
    /// The listeners of an output that has no line yet.
    pub fn new(listeners: Vec<L>) -> Audience<L>
        ensures first { result.line ≡ 1 }
        ensures listeners { result.listeners ≡ map (λ listener. L.standing listener) listeners.items }
    {
        Audience { listeners, line: 1 }
    }

    /// A line was written of which no listener is told.
    pub fn pass(&mut self)
        ensures next { self.new.line ≡ next_line self.old.line }
        ensures same { self.new.listeners ≡ self.old.listeners }
    {
        self.line = self.line.saturating_add(1);
    }

    /// The line of an answer was written, with this `status` member, and so many bytes without its newline. Each listener is
    /// told once, in turn; those that leave are dropped, and the others stay in their order. It takes no memory, and time in
    /// proportion to the number of listeners.
    pub fn tell(&mut self, status: u16, bytes: u64)
        ensures next { self.new.line ≡ next_line self.old.line }
        ensures told { self.new.listeners ≡ all_having_heard (record { line = self.old.line; status = status; bytes = bytes }) self.old.listeners }
    {
        let told = Told {
            line: self.line,
            status,
            bytes,
        };
        tell(&mut self.listeners, told);
        self.line = self.line.saturating_add(1);
    }

    /// Those that are left, in their order.
    pub fn listeners(&self) -> &[L]
        ensures { map (λ listener. L.standing listener) result.now ≡ self.now.listeners }
    {
        self.listeners.as_slice()
    }
}
