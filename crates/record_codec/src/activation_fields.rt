// Sessions, and what a device was granted.
ghost use Rattle.std.specs.Prelude.{◌≡◌, ◌++◌, IfSome, OnOk};
ghost use Rattle.record_codec.specs.DeviceRecord.{activation, channels_byte, current_session};
ghost use Rattle.record_codec.specs.DeviceRecord.{granted_bytes, optional_current};
ghost use Rattle.record_codec.specs.DeviceRecord.{optional_session, session, AreGrants};
ghost use Rattle.record_codec.specs.DeviceRecord.{IsCurrentSession, IsJoinNonce, IsSession};
ghost use Rattle.record_codec.specs.Change.{counters_bytes, AreCounters};
ghost use Rattle.byte_fields.specs.Reading.{Gives, seen_as, three_be_bytes_at};
ghost use Rattle.record_codec.specs.Reading.{activation_at, channels_at, current_at};
ghost use Rattle.record_codec.specs.Reading.{nonce_from, optional_by, session_at};
ghost use Rattle.record_codec.specs.Writing.{KeepsFront};

use crate::written_fields::put_key;
use byte_fields::FieldReader;
use devices::{Activation, Channels, CurrentSession, NextDown, Session};
use lw_types::JoinNonce;
use std::alloc::AllocError;

/// 00 if no session exists, 01 before one of three channels, 02 before one of eight.
fn read_channels(fields: &mut FieldReader<'_>) -> Option<Option<Channels>>
    ensures { Gives result fields.new.rest.now (channels_at fields.old.rest.now) }
{
    match fields.byte()? {
        0 => Some(None),
        1 => Some(Some(Channels::Three)),
        2 => Some(Some(Channels::Eight)),
        _ => None,
    }
}

#[tactic(auto, unfolding(crate::specs::Reading::session_at))]
fn read_session(fields: &mut FieldReader<'_>, channels: Channels) -> Option<Session>
    ensures { Gives result fields.new.rest.now (session_at channels fields.old.rest.now) }
{
    let join_nonce = JoinNonce::new(fields.u24_be()?)?;
    let nwk_skey = fields.key()?;
    let app_skey = fields.key()?;
    Some(Session {
        join_nonce,
        nwk_skey,
        app_skey,
        channels,
    })
}

#[tactic(auto, unfolding(crate::specs::Reading::current_at))]
fn read_current(fields: &mut FieldReader<'_>, channels: Channels) -> Option<CurrentSession>
    ensures { Gives result fields.new.rest.now (current_at channels fields.old.rest.now) }
{
    let session = read_session(fields, channels)?;
    let last_up = fields.u32_be()?;
    let next_down = NextDown::new(fields.u64_be()?)?;
    Some(CurrentSession {
        session,
        last_up,
        next_down,
    })
}

/// The last JoinNonce granted, or 0 for none.
pub(crate) fn read_granted(fields: &mut FieldReader<'_>) -> Option<Option<JoinNonce>>
    ensures { Gives result fields.new.rest.now
        (seen_as nonce_from three_be_bytes_at fields.old.rest.now) }
{
    Some(JoinNonce::new(fields.u24_be()?))
}

/// 00, or the channels and the current session.
pub(crate) fn read_optional_current(fields: &mut FieldReader<'_>) -> Option<Option<CurrentSession>>
    ensures { Gives result fields.new.rest.now (optional_by current_at fields.old.rest.now) }
{
    match read_channels(fields)? {
        Some(channels) => Some(Some(read_current(fields, channels)?)),
        None => Some(None),
    }
}

/// 00, or the channels and the session.
pub(crate) fn read_optional_session(fields: &mut FieldReader<'_>) -> Option<Option<Session>>
    ensures { Gives result fields.new.rest.now (optional_by session_at fields.old.rest.now) }
{
    match read_channels(fields)? {
        Some(channels) => Some(Some(read_session(fields, channels)?)),
        None => Some(None),
    }
}

/// What was granted and the sessions, if they are in order.
#[tactic(auto, unfolding(crate::specs::Reading::activation_at))]
pub(crate) fn read_activation(fields: &mut FieldReader<'_>) -> Option<Activation>
    ensures { Gives result fields.new.rest.now (activation_at fields.old.rest.now) }
{
    let granted = read_granted(fields)?;
    let current = read_optional_current(fields)?;
    let pending = read_optional_session(fields)?;
    Activation::new(granted, current, pending)
}

// The byte that says that a session of these channels exists.
fn channels_byte(channels: Channels) -> u8
    ensures { result ≡ channels_byte channels }
{
    match channels {
        Channels::Three => 1,
        Channels::Eight => 2,
    }
}

fn put_session(out: &mut Vec<u8>, s: &Session) -> Result<(), AllocError>
    ensures written { OnOk result (out.new.items ≡ out.old.items ++ session s.now) }
    ensures in_range { OnOk result (IsSession s.now) }
    ensures keeps { KeepsFront out.old.items out.new.items }
{
    let [_, high, middle, low] = s.join_nonce.get().to_be_bytes();
    out.extend_from_slice(&[high, middle, low])?;
    put_key(out, s.nwk_skey)?;
    put_key(out, s.app_skey)?;
    Ok(())
}

/// Appends the counter of a session's last uplink and that of its next downlink.
pub(crate) fn put_counters(
    out: &mut Vec<u8>,
    last_up: u32,
    next_down: NextDown,
) -> Result<(), AllocError>
    ensures written { OnOk result (out.new.items
        ≡ out.old.items ++ counters_bytes (last_up, next_down)) }
    ensures in_range { AreCounters (last_up, next_down) }
    ensures keeps { KeepsFront out.old.items out.new.items }
{
    out.extend_from_slice(&last_up.to_be_bytes())?;
    out.extend_from_slice(&next_down.get().to_be_bytes())?;
    Ok(())
}

fn put_current(out: &mut Vec<u8>, current: &CurrentSession) -> Result<(), AllocError>
    ensures written { OnOk result (out.new.items ≡ out.old.items ++ current_session current.now) }
    ensures in_range { OnOk result (IsCurrentSession current.now) }
    ensures keeps { KeepsFront out.old.items out.new.items }
{
    put_session(out, &current.session)?;
    put_counters(out, current.last_up, current.next_down)?;
    Ok(())
}

/// Appends the last JoinNonce granted, or 0 for none.
pub(crate) fn put_granted(out: &mut Vec<u8>, nonce: Option<JoinNonce>) -> Result<(), AllocError>
    ensures written { OnOk result (out.new.items ≡ out.old.items ++ granted_bytes nonce) }
    ensures in_range { OnOk result (IfSome nonce IsJoinNonce) }
    ensures keeps { KeepsFront out.old.items out.new.items }
{
    let number = match nonce {
        None => 0,
        Some(nonce) => nonce.get(),
    };
    let [_, high, middle, low] = number.to_be_bytes();
    out.extend_from_slice(&[high, middle, low])
}

/// Appends 00, or the channels and the current session.
pub(crate) fn put_optional_current(
    out: &mut Vec<u8>,
    current: &Option<CurrentSession>,
) -> Result<(), AllocError>
    ensures written { OnOk result (out.new.items ≡ out.old.items ++ optional_current current.now) }
    ensures in_range { OnOk result (IfSome current.now IsCurrentSession) }
    ensures keeps { KeepsFront out.old.items out.new.items }
{
    match current {
        None => out.push(0)?,
        Some(current) => {
            out.push(channels_byte(current.session.channels))?;
            put_current(out, current)?;
        }
    }
    Ok(())
}

/// Appends 00, or the channels and the session.
pub(crate) fn put_optional_session(
    out: &mut Vec<u8>,
    pending: &Option<Session>,
) -> Result<(), AllocError>
    ensures written { OnOk result (out.new.items ≡ out.old.items ++ optional_session pending.now) }
    ensures in_range { OnOk result (IfSome pending.now IsSession) }
    ensures keeps { KeepsFront out.old.items out.new.items }
{
    match pending {
        None => out.push(0)?,
        Some(session) => {
            out.push(channels_byte(session.channels))?;
            put_session(out, session)?;
        }
    }
    Ok(())
}

/// Appends what was granted and the sessions.
pub(crate) fn put_activation(out: &mut Vec<u8>, grants: &Activation) -> Result<(), AllocError>
    ensures written { OnOk result (out.new.items ≡ out.old.items ++ activation grants.now) }
    ensures in_range { OnOk result (AreGrants grants.now) }
    ensures keeps { KeepsFront out.old.items out.new.items }
{
    put_granted(out, grants.granted())?;
    put_optional_current(out, &grants.current())?;
    put_optional_session(out, &grants.pending())
}
