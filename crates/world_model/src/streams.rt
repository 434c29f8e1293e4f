// What links say, in the model: everything that came over a link is read anew with each piece.
ghost use Rattle.std.specs.Prelude.{◌≡◌, IfOk};
ghost use Rattle.world.specs.Links.{Completes, stream_on};

use link_messages::{Fed, Feeder};
use lw_types::Refusal;
use std::alloc::Global;
use std::marker::Model;
use world::{Event, events_of};

/// Bytes that came on a link.
#[derive(Drop)]
pub struct PlainPiece {
    link: u64,
    bytes: Vec<u8>,
}

impl Model for PlainPiece {
    ghost use Rattle.world.specs.Links.{Piece};

    ghost Value = { Piece };

    ghost view = { λ p. record { link = p.link; bytes = p.bytes.items } };
}

impl PlainPiece {
    /// These bytes came on this link.
    pub fn new(alloc: Global, link: u64, bytes: &[u8]) -> Result<Self, Refusal>
        ensures { IfOk result (λ piece. piece ≡ record { link = link; bytes = bytes.now }) }
    {
        Ok(PlainPiece {
            link,
            bytes: Vec::from_slice(alloc, bytes)?,
        })
    }
}

/// The events of a piece after what came over its link, and the fault after them.
pub fn completed(
    alloc: Global,
    pieces: &[PlainPiece],
    link: u64,
    piece: &[u8],
) -> Result<(Vec<Event>, Option<Refusal>), Refusal>
    ensures { IfOk result (λ told. Completes
        (stream_on link pieces.now) piece.now told.0.items told.1) }
{
    link_messages::laws::cuts_make_no_difference();
    let stream = stream_on(alloc, pieces, link)?;
    let mut feeder = Feeder::new(alloc);
    let _ = feeder.feed(&stream)?;
    let peer = feeder.peer();
    let Fed { messages, fault } = feeder.feed(piece)?;
    Ok((events_of(alloc, peer, messages)?, fault))
}

// All that came over a link.
fn stream_on(alloc: Global, pieces: &[PlainPiece], link: u64) -> Result<Vec<u8>, Refusal>
    ensures { IfOk result (λ stream. stream.items ≡ stream_on link pieces.now) }
{
    let mut stream = Vec::new(alloc);
    for piece in pieces {
        if piece.link == link {
            stream.extend_from_slice(&piece.bytes)?;
        }
    }
    Ok(stream)
}
