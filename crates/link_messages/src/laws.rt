//! Laws of the messages in streams. Each is the contract of a function that does nothing.
ghost use Rattle.std.specs.Prelude.{◌≡◌, ◌++◌, List, None, Option, ℕ};
ghost use Rattle.lw_types.specs.Hex.{IsBytes};
ghost use Rattle.lw_types.specs.declared.refusal.Refusal.{Refusal};
ghost use Rattle.link_messages.specs.declared.message.Message.{Message};
ghost use Rattle.link_messages.specs.declared.message.Peer.{Peer};
ghost use Rattle.link_messages.specs.Stream.{peer_after, End, Fault, IsSaid, Rest};
ghost use Rattle.link_messages.specs.Feeding.{joined_pieces, new_feed, FeedState, FeedsAll};

use crate::feeder::HEAD;
use crate::message::{
    APPLICATION_GREETING, GATEWAY_GREETING, LONGEST_CONTENT, REQUEST, UPLINK_COPY,
};

/// Each stream of bytes has exactly one meaning.
pub fn each_stream_says_one_thing()
    ensures some { (peer : Option Peer) (stream : List ℕ) → IsBytes stream
        → (messages : List Message) × (end : End) × IsSaid peer stream messages end }
    ensures one { (peer : Option Peer) (stream : List ℕ) (a : List Message) (b : List Message)
        (x : End) (y : End)
        → IsSaid peer stream a x → IsSaid peer stream b y → (a ≡ b) × (x ≡ y) }
{}

/// How a stream is cut makes no difference. The messages of its rest and a further piece come after
/// the messages so far; a fault stays; and the pieces that a new feeder is given say the same as
/// all of them joined.
pub fn cuts_make_no_difference()
    ensures rest { (peer : Option Peer) (stream : List ℕ) (rest : List ℕ) (piece : List ℕ)
        (messages : List Message) (others : List Message) (end : End)
        → IsSaid peer stream messages (Rest rest)
        → IsSaid (peer_after peer messages) (rest ++ piece) others end
        → IsSaid peer (stream ++ piece) (messages ++ others) end }
    ensures fault { (peer : Option Peer) (stream : List ℕ) (piece : List ℕ)
        (messages : List Message) (refusal : Refusal)
        → IsSaid peer stream messages (Fault refusal)
        → IsSaid peer (stream ++ piece) messages (Fault refusal) }
    ensures pieces { (pieces : List (List ℕ)) (messages : List Message) (heard : FeedState)
        → FeedsAll new_feed pieces messages heard
        → (heard.peer ≡ peer_after None messages)
        × IsSaid None (joined_pieces pieces) messages heard.end }
{}

/// The first byte of each content, the most bytes of content of a frame, and the number of bytes
/// for the length before it.
pub fn limits_are_these()
    ensures gateway { GATEWAY_GREETING ≡ 0 }
    ensures copy { UPLINK_COPY ≡ 1 }
    ensures application { APPLICATION_GREETING ≡ 2 }
    ensures request { REQUEST ≡ 3 }
    ensures content { LONGEST_CONTENT ≡ 700 }
    ensures head { HEAD ≡ 2 }
{}
