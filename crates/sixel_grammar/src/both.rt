//! Two followers of the same events.

use crate::command::{Command, Placed};
use crate::following::Follower;
use std::convert::Infallible;

/// Hands each event to two followers, of which the second never stops. Where the first stops, the second isn't asked.
#[derive(Drop)]
pub struct Both<A, B> {
    pub one: A,
    pub other: B,
}

impl<A: Follower, B: Follower<Stop = Infallible>> Follower for Both<A, B> {
    type Stop = A::Stop;

    ghost has_taken = { λ first now seen. A.has_taken first.one now.one seen × B.has_taken first.other now.other seen };

    ghost may_stop = { λ first now stop seen. A.may_stop first.one now.one stop seen };

    #[inline(always)]
    fn take(&mut self, placed: &Placed) -> Result<(), A::Stop> {
        self.one.take(placed)?;
        let Ok(()) = self.other.take(placed);
        Ok(())
    }

    #[inline(always)]
    fn take_command(&mut self, place: u64, command: Command) -> Result<(), A::Stop> {
        self.one.take_command(place, command)?;
        let Ok(()) = self.other.take_command(place, command);
        Ok(())
    }

    #[inline(always)]
    fn take_select(&mut self, place: u64, register: u16) -> Result<(), A::Stop> {
        self.one.take_select(place, register)?;
        let Ok(()) = self.other.take_select(place, register);
        Ok(())
    }

    #[inline(always)]
    fn take_repeat(&mut self, place: u64, count: u16, bits: u8) -> Result<(), A::Stop> {
        self.one.take_repeat(place, count, bits)?;
        let Ok(()) = self.other.take_repeat(place, count, bits);
        Ok(())
    }

    #[inline(always)]
    fn take_stretch(&mut self, place: u64, bytes: &[u8], count: usize) -> Result<(), A::Stop> {
        self.one.take_stretch(place, bytes, count)?;
        let Ok(()) = self.other.take_stretch(place, bytes, count);
        Ok(())
    }
}
