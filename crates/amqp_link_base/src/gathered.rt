//! The bytes of a message that is still coming.
ghost use Rattle.std.specs.Prelude.{◌≡◌, ◌+◌, ◌^◌, ◌<◌, ◌≤◌, [], ◌++◌, length, take, OnOk, OnErr, IfOk, IfSome};
ghost use Rattle.std.specs.List.{concat};
ghost use Rattle.std.specs.Vec.{vec_len, vec_capacity};
ghost use Rattle.amqp_link_base.specs.Starts.{place_at, read_at, start_of};
ghost use Rattle.amqp_link_base.specs.Scans.{Scanned};

use crate::scan::{Scan, reach};
use amqp_session_states::Received;
use bytes::Bytes;
use std::alloc::{AllocError, Global};
use std::marker::Model;

/// Pieces of a payload as they come. They are looked into only where the place to which they reach is asked for. A clause
/// sees their bytes.
#[derive(Drop)]
pub struct Gathered {
    pieces: Vec<Bytes>,
    /// How many bytes they have together.
    size: usize,
}

impl Model for Gathered {
    ghost use Rattle.std.specs.Prelude.{◌≡◌, ◌<◌, ◌^◌, List, ℕ, length};
    ghost use Rattle.std.specs.List.{concat};

    ghost Value = { List ℕ };

    ghost view = { λ s. concat s.pieces.items };

    ghost invariant = { λ s. (s.size ≡ length (concat s.pieces.items)) × (s.size < 2 ^ 32) };
}

impl Gathered {
    /// No piece.
    pub fn new(alloc: Global) -> Self
        ensures { result ≡ [] }
    {
        Gathered {
            pieces: Vec::new(alloc),
            size: 0,
        }
    }

    /// One piece more. Where there is no memory nothing changes.
    pub fn push(&mut self, piece: Bytes) -> Result<(), AllocError>
        requires { length self.old + length piece < 2 ^ 32 }
        ensures ok { OnOk result (self.new ≡ self.old ++ piece) }
        ensures err { OnErr result (self.new ≡ self.old) }
    {
        self.pieces.reserve(1)?;
        self.size += piece.len();
        self.pieces.push_reserved(piece);
        Ok(())
    }

    /// The first bytes alone, and one piece more. Where there is no memory nothing changes.
    pub fn push_behind(&mut self, kept: usize, next: Bytes) -> Result<(), AllocError>
        requires { length (take kept self.old) + length next < 2 ^ 32 }
        ensures ok { OnOk result (self.new ≡ take kept self.old ++ next) }
        ensures err { OnErr result (self.new ≡ self.old) }
    {
        self.pieces.reserve(1)?;
        cut(&mut self.pieces, kept);
        self.size = self.size.min(kept) + next.len();
        self.pieces.push_reserved(next);
        Ok(())
    }

    /// Keeps the first bytes alone.
    pub fn keep(&mut self, n: usize)
        ensures { self.new ≡ take n self.old }
    {
        cut(&mut self.pieces, n);
        self.size = self.size.min(n);
    }

    /// How many bytes have come.
    pub fn size(&self) -> usize
        ensures size { result ≡ length self.now }
        ensures small { result < 2 ^ 32 }
    {
        self.size
    }

    /// The place to which the bytes reach. It is found byte by byte.
    pub fn place(&self) -> Received
        ensures { result ≡ place_at self.now (length self.now) }
    {
        scan_of(&self.pieces).place()
    }

    /// How many of the bytes stand before a place.
    pub fn read_place(&self, place: Received) -> Option<usize>
        ensures { result ≡ read_at self.now place }
    {
        match section_start(&self.pieces, place.section_number) {
            Some(start) => reach(self.size(), start, place.section_offset),
            None => None,
        }
    }

    /// The first bytes in one piece, with a last piece behind them.
    pub fn join(&self, alloc: Global, kept: usize, last: &Bytes) -> Result<Bytes, AllocError>
        ensures { IfOk result (λ all. all ≡ take kept self.now ++ last.now) }
    {
        let size = self.size.min(kept).saturating_add(last.len());
        joined(alloc, size, &self.pieces, kept, last)
    }

    /// The pieces.
    pub fn into_pieces(self) -> Vec<Bytes>
        ensures { concat result.items ≡ self }
    {
        self.pieces
    }
}

/// The first bytes of the pieces, and a last piece behind them, in memory for so many.
fn joined(
    alloc: Global,
    size: usize,
    pieces: &[Bytes],
    kept: usize,
    last: &Bytes,
) -> Result<Bytes, AllocError>
    ensures { IfOk result (λ all. all ≡ take kept (concat pieces.now) ++ last.now) }
{
    let mut all: Vec<u8> = Vec::with_capacity(alloc, size)?;
    let mut left = kept;
    for piece in pieces {
        let n = left.min(piece.len());
        all.extend_from_slice(&piece.as_slice()[..n])?;
        left -= n;
    }
    all.extend_from_slice(last)?;
    match Bytes::from_vec(all) {
        Ok(bytes) => Ok(bytes),
        Err(_) => Err(AllocError),
    }
}

/// Leaves the first bytes of the pieces.
fn cut(pieces: &mut Vec<Bytes>, n: usize)
    ensures bytes { concat pieces.new.items ≡ take n (concat pieces.old.items) }
    ensures room { vec_len pieces.old < vec_capacity pieces.old →
        vec_len pieces.new < vec_capacity pieces.new }
{
    let mut left = n;
    for i in 0..pieces.len() {
        let len = pieces[i].len();
        if left <= len {
            let piece = &mut pieces[i];
            piece.truncate(left);
            pieces.truncate(i + 1);
            return;
        }
        left -= len;
    }
}

/// The pieces, scanned anew.
fn scan_of(pieces: &[Bytes]) -> Scan
    requires { length (concat pieces.now) < 2 ^ 32 }
    ensures { Scanned result (concat pieces.now) }
{
    let mut scan = Scan::new();
    for piece in pieces {
        scan.take(piece);
    }
    scan
}

/// Where a section starts in the pieces.
fn section_start(pieces: &[Bytes], number: u32) -> Option<u64>
    requires { length (concat pieces.now) < 2 ^ 32 }
    ensures value { result ≡ start_of (concat pieces.now) number }
    ensures within { IfSome result (λ start. start ≤ length (concat pieces.now)) }
{
    let mut scan = Scan::new();
    for piece in pieces {
        if let Some(start) = scan.seek(piece, number) {
            return Some(start);
        }
    }
    scan.started(number)
}
