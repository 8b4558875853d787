//! Where threads sleep until their turn comes. No contract speaks of it.

ghost use Rattle.std.specs.Prelude.{◌≡◌, vec_len};
ghost use Rattle.turn_lock.specs.declared.bells.TheConstants.{BELLS};

use std::alloc::{AllocError, Global};
use std::sync::Wait;
use std::sync::atomic::{AtomicU64, Ordering};

/// How many bells a lock has. Threads share one where their tickets differ by a multiple of it, so
/// that up to so many sleep each at one of their own.
const BELLS: u64 = 64;

/// How often a thread that is the next looks before it sleeps.
const LOOKS: u32 = 64;

/// Each bell counts how often it was rung.
#[derive(Drop)]
pub(crate) struct Bells {
    bells: Vec<AtomicU64>,
    ghost all: { vec_len bells ≡ BELLS },
}

/// How often the bell of a ticket was rung.
#[derive(Clone, Copy)]
pub(crate) struct Heard {
    ticket: u64,
    rung: u64,
}

impl Bells {
    pub(crate) fn new(alloc: Global) -> Result<Bells, AllocError> {
        let mut bells = Vec::with_capacity(alloc, BELLS as usize)?;
        for _ in 0..BELLS {
            bells.push_reserved(AtomicU64::new(0));
        }
        Ok(Bells { bells })
    }

    fn bell_of(&self, ticket: u64) -> &AtomicU64 {
        &self.bells[(ticket % BELLS) as usize]
    }

    /// How often the bell of this ticket was rung. A thread asks before it looks, so that it does
    /// not sleep through a turn that comes after the look.
    pub(crate) fn listen(&self, ticket: u64) -> Heard {
        let rung = self.bell_of(ticket).load(Ordering::SeqCst);
        Heard { ticket, rung }
    }

    /// Wakes those who sleep at the bell of this ticket.
    pub(crate) fn ring(&self, ticket: u64) {
        let bell = self.bell_of(ticket);
        bell.fetch_add(1, Ordering::SeqCst);
        bell.wake_all();
    }

    /// Sleeps until the bell is rung again. The next in the line of tickets first looks some times,
    /// for its turn may come sooner than a sleep would end.
    pub(crate) fn pause<R: Wait>(&self, rt: &R, heard: Heard, served: u64, looks: u32) {
        let ahead = heard.ticket.wrapping_sub(served);
        if ahead == 1 && looks < LOOKS {
            std::hint::spin_loop();
        } else {
            self.bell_of(heard.ticket)
                .park(rt, (heard.rung % (1 << 32)) as u32);
        }
    }
}
