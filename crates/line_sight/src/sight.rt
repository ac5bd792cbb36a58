//! What one thread looked at last, line by line.

ghost use Rattle.std.specs.Prelude.{◌≡◌, ◌<◌, ◌≤◌, ◌+◌, ◌^◌, ℕ, [], IfOk, IfSome, MatchOption, OnOk, true, drop, length, take, vec_len};
ghost use Rattle.corpus_json.specs.Lines.{FirstLfAt, HasNoLf};
ghost use Rattle.line_sight.specs.Seen.{Sees, Shown};

use crate::Seen;
use aql_io::Source;
use memchr::memchr;
use span_token::OutOfMemory;
use std::alloc::Global;
use std::marker::Model;

/// How many bytes are looked at in one call, at most: so few that they are still near the processor when they are read.
const STEP: usize = 65_536;

/// How many bytes are looked at in one call, at least, where so many are there.
const LEAST: usize = 4_096;

/// What one thread looked at last: bytes from some place on. Their room is used again.
#[derive(Drop)]
pub struct Sight {
    room: Vec<u8>,
    from: usize,
    to: usize,
    /// The place of the first of them.
    at: usize,
}

impl Model for Sight {
    ghost use Rattle.std.specs.Prelude.{◌+◌, ◌-◌, ◌<◌, ◌≤◌, ◌^◌, slice_range, vec_len};
    ghost use Rattle.line_sight.specs.Seen.{Sighted};

    ghost Value = { Sighted };

    ghost view = { λ s. record { at = s.at; bytes = slice_range s.room.items s.from s.to } };

    ghost invariant = { λ s. (s.from ≤ s.to) × (s.to ≤ vec_len s.room) × (s.at + (s.to - s.from) < 2 ^ 64) };
}

impl Sight {
    /// Nothing is looked at yet. It takes no memory.
    pub fn new(alloc: Global) -> Sight
        ensures { result ≡ record { at = 0; bytes = [] } }
    {
        Sight {
            room: Vec::new(alloc),
            from: 0,
            to: 0,
            at: 0,
        }
    }

    /// The place of the first byte.
    pub fn at(&self) -> usize
        ensures { result ≡ self.now.at }
    {
        self.at
    }

    /// Goes to another place, where nothing is looked at yet.
    pub fn go_to(&mut self, at: usize)
        ensures place { self.new ≡ record { at = at; bytes = [] } }
        ensures sees { (shown : Shown) → at ≤ shown.most → Sees shown self.new }
    {
        self.from = 0;
        self.to = 0;
        self.at = at;
    }

    /// The first `n` bytes.
    pub fn front(&self, n: usize) -> &[u8]
        requires within { n ≤ length self.now.bytes }
        ensures { result.now ≡ take n self.now.bytes }
    {
        &self.room[self.from..self.from + n]
    }

    /// Goes on behind a line of `n` bytes and its LF.
    pub fn pass_line(&mut self, n: usize)
        requires within { n < length self.old.bytes }
        ensures place { self.new ≡ record { at = self.old.at + (n + 1); bytes = drop (n + 1) self.old.bytes } }
        ensures sees { (shown : Shown) → Sees shown self.old → Sees shown self.new }
    {
        self.from = self.from + n + 1;
        self.at = self.at + n + 1;
    }

    /// Looks on until the line is there that begins at the place, and answers how many bytes it has before its LF. `None`
    /// where these are `limit` and more, and where no more can be seen. Up to the place `until` much is looked at in each
    /// call, and behind it first few bytes and then more, since there only this line may be wanted. After want of memory it
    /// goes on from another place alone (`go_to`).
    pub fn find_line<S: Source>(
        &mut self,
        seen: &Seen<'_, S>,
        limit: usize,
        until: usize,
    ) -> Result<Option<usize>, OutOfMemory>
        requires sees { Sees seen.now self.old }
        ensures at { OnOk result (self.new.at ≡ self.old.at) }
        ensures sees { OnOk result (Sees seen.now self.new) }
        ensures found { IfOk result (λ found. IfSome found (FirstLfAt self.new.bytes)) }
        ensures short { IfOk result (λ found. IfSome found (λ n. n < limit)) }
    {
        let mut searched = 0;
        'looks: loop {
            let found = find_lf(&self.room[self.from + searched..self.to]);
            if let Some(n) = found {
                let long = searched + n;
                if long >= limit {
                    return Ok(None);
                }
                return Ok(Some(long));
            }
            searched = self.to - self.from;
            if searched >= limit || !self.look_on(seen, until)? {
                return Ok(None);
            }
        }
    }

    /// Looks at more bytes behind the others. False where none can be seen.
    fn look_on<S: Source>(&mut self, seen: &Seen<'_, S>, until: usize) -> Result<bool, OutOfMemory>
        requires sees { Sees seen.now self.old }
        ensures at { OnOk result (self.new.at ≡ self.old.at) }
        ensures sees { OnOk result (Sees seen.now self.new) }
        ensures kept { OnOk result (take (length self.old.bytes) self.new.bytes ≡ self.old.bytes) }
        ensures more { IfOk result (λ more. more ≡ true → length self.old.bytes < length self.new.bytes) }
    {
        self.make_room()?;
        let Some(place) = self.at.checked_add(self.to - self.from) else {
            return Ok(false);
        };
        let wanted = step(self.to - self.from, place, until);
        let n = look_behind(&mut self.room, seen, self.to, place, wanted);
        if n == 0 || n > usize::MAX - place {
            return Ok(false);
        }
        self.to += n;
        Ok(true)
    }

    /// Makes room behind the bytes: they are moved to the front where as many were skipped, and there is more room where
    /// that doesn't do.
    fn make_room(&mut self) -> Result<(), OutOfMemory>
        ensures { OnOk result (self.new ≡ self.old) }
    {
        self.move_to_front();
        if self.room.len() - self.to < STEP {
            grow(&mut self.room, self.to, STEP)?;
        }
        Ok(())
    }

    /// Moves the bytes to the front of their room, where as many were skipped.
    fn move_to_front(&mut self)
        ensures { self.new ≡ self.old }
    {
        let held = self.to - self.from;
        if 0 < self.from && held <= self.from {
            move_down(&mut self.room, self.from, held);
            self.from = 0;
            self.to = held;
        }
    }
}

/// How many bytes to look at next, at `place`, where so many are held: up to the place `until`, and behind it as many as are
/// held.
fn step(held: usize, place: usize, until: usize) -> usize {
    let wanted = if place < until { until - place } else { held };
    wanted.max(LEAST).min(STEP)
}

/// Looks at up to `wanted` bytes that stand at `place`, and puts them into the room from `to` on. Answers how many these are.
fn look_behind<S: Source>(
    room: &mut Vec<u8>,
    seen: &Seen<'_, S>,
    to: usize,
    place: usize,
    wanted: usize,
) -> usize
    requires within { to ≤ vec_len room.old }
    ensures bound { to + result ≤ vec_len room.new }
    ensures kept { take to room.new.items ≡ take to room.old.items }
    ensures within { 0 < result → place + result ≤ seen.now.most }
    ensures front { (k : ℕ) → k ≤ result → place + k ≤ length seen.now.ready → take k (drop place seen.now.ready) ≡ take k (drop to room.new.items) }
    ensures bytes { IfSome seen.now.all (λ whole. take result (drop place whole) ≡ take result (drop to room.new.items)) }
{
    let until = to + wanted.min(room.len() - to);
    seen.look(place, &mut room[to..until])
}

/// Copies `count` bytes from a place to the front.
fn move_down(room: &mut Vec<u8>, from: usize, count: usize)
    requires apart { count ≤ from }
    requires within { from + count ≤ vec_len room.old }
    ensures long { vec_len room.new ≡ vec_len room.old }
    ensures moved { take count room.new.items ≡ take count (drop from room.old.items) }
{
    let (front, back) = room.split_at_mut(from);
    front[..count].copy_from_slice(&back[..count]);
}

/// Makes room for so many bytes more, behind a place.
fn grow(room: &mut Vec<u8>, at: usize, more: usize) -> Result<(), OutOfMemory>
    requires within { at ≤ vec_len room.old }
    ensures long { at ≤ vec_len room.new }
    ensures kept { take at room.new.items ≡ take at room.old.items }
{
    let wanted = at.saturating_add(more);
    if room.len() < wanted {
        room.resize(wanted, 0)?;
    }
    Ok(())
}

/// The place of the first LF.
fn find_lf(bytes: &[u8]) -> Option<usize>
    ensures { MatchOption result (HasNoLf bytes.now) (FirstLfAt bytes.now) }
{
    memchr(b'\n', bytes)
}
