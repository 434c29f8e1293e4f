// What a new uplink does (TS001-1.0.4 §4.3, §5).
ghost use Rattle.std.specs.Prelude.{◌≡◌, ◌≤◌, ◌<◌, ◌+◌, ◌++◌, [], length, IfOk, MatchResult, OnOk};
ghost use Rattle.lw_types.specs.declared.refusal.Refusal.TheVariants.{OutOfMemory};
ghost use Rattle.lw_types.specs.declared.direction.Direction.TheVariants.{Up};
ghost use Rattle.frame_crypt.specs.Frames.{crypted_payload};
ghost use Rattle.mac_commands.specs.Reading.{asks_link_check, reported_bytes};
ghost use Rattle.devices.specs.Heard.{IsReceivable};
ghost use Rattle.uplinks.specs.Fit.{IsOf};
ghost use Rattle.uplinks.specs.Accepted.{is_acknowledgement, forward_effects, mac_bytes};
ghost use Rattle.uplinks.specs.Accepted.{mac_report, awaited_report, session_after, uplink_step};
ghost use Rattle.uplinks.specs.Accepted.{with_uplink};

use crate::arrival::{HeardUplink, NetworkSlot};
use crate::{Fit, Uplink};
use devices::{
    CurrentSession, Device, Effect, Effects, NextDown, Payload, Port, Report, SessionName,
};
use downlinks::{Demand, answer};
use frame_crypt::crypt_payload;
use lw_types::{DevAddr, Direction, Key, LONGEST_PAYLOAD, Refusal};
use mac_commands::{asks_link_check, read_reported};
use phy_payload::DataFrameRef;
use std::alloc::{AllocError, Global};

impl NetworkSlot {
    // Accepts a new uplink: stores its session and counter, and answers the device.
    pub(crate) fn accept_uplink(
        &self,
        alloc: Global,
        device: &mut Device,
        effects: &mut Effects,
        fit: Fit,
        heard: &HeardUplink<'_>,
    ) -> Result<(), Refusal>
        requires of_device { IsOf device.old.activation fit }
        requires heard { IsReceivable heard.now.best.reception }
        requires none { effects.old ≡ [] }
        ensures { MatchResult result
            (λ _. let o = uplink_step self.now.net_id self.now.slot device.old fit
            heard.now.uplink.now heard.now.copies heard.now.best in
            (device.new ≡ o.device) × (effects.new ≡ o.effects))
            (λ e. e ≡ OutOfMemory) }
    {
        let session = fit.session_after();
        let commands = commands(alloc, &session, &heard.uplink.frame)?;
        let asked = demand_of(heard, commands.as_slice());
        tell_awaited(device, effects, fit.acknowledges(heard.uplink))?;
        report_commands(alloc, device, effects, &session, commands.as_slice())?;
        forward(alloc, device, effects, &session, heard)?;
        fit.enter(device);
        let place = self.session(session);
        answer(alloc, device, effects, &place, &asked)
    }
}

impl Fit {
    // The session of the device after the uplink.
    fn session_after(&self) -> CurrentSession
        ensures { result ≡ session_after self.now }
    {
        match *self {
            Fit::First { session, counter } => CurrentSession {
                session,
                last_up: counter,
                next_down: NextDown::new(0).unwrap(),
            },
            Fit::Next { session, counter } => CurrentSession {
                last_up: counter,
                ..session
            },
            Fit::Again { session } => session,
        }
    }

    // Whether the uplink acknowledges the last confirmed downlink. That downlink was in the same
    // session.
    fn acknowledges(&self, uplink: &Uplink<'_>) -> bool
        ensures { result ≡ is_acknowledgement self.now uplink.now }
    {
        match *self {
            Fit::First { .. } => false,
            Fit::Next { .. } => uplink.ack,
            Fit::Again { .. } => false,
        }
    }

    // Counts the uplink if it is new. The device keeps its session and counter, and no longer
    // awaits an item.
    fn enter(&self, device: &mut Device)
        requires { IsOf device.old.activation self.now }
        ensures { device.new ≡ with_uplink device.old self.now }
    {
        device.awaited = None;
        match *self {
            Fit::First { session, counter } => {
                device.hear_one_more();
                device.activation.begin(session, counter);
            }
            Fit::Next { session, counter } => {
                device.hear_one_more();
                device.activation.advance(session, counter);
            }
            Fit::Again { .. } => {}
        }
    }
}

// Reports the awaited item as acknowledged or as lost.
fn tell_awaited(device: &Device, effects: &mut Effects, acked: bool) -> Result<(), AllocError>
    requires { length effects.old < Effects.MOST }
    ensures told { OnOk result (effects.new
        ≡ effects.old ++ awaited_report device.now acked device.now.awaited) }
    ensures one { OnOk result (length effects.new ≤ length effects.old + 1) }
{
    match device.awaited {
        None => Ok(()),
        Some(tag) if acked => effects.tell(device, Report::Acked { tag }),
        Some(tag) => effects.tell(device, Report::Lost { tag }),
    }
}

// ---- MAC commands

// The MAC commands of the uplink: encrypted on port 0, otherwise in FOpts.
fn commands(
    alloc: Global,
    session: &CurrentSession,
    frame: &DataFrameRef<'_>,
) -> Result<Payload, AllocError>
    ensures { IfOk result (λ bytes. bytes
        ≡ mac_bytes frame.now.dev_addr session.now frame.now.contents.f_opts
        frame.now.contents.port_payload) }
{
    match frame.port_payload() {
        Some(port_payload) if port_payload.f_port == 0 => {
            let key = &session.session.nwk_skey;
            decrypted(
                alloc,
                key,
                session,
                frame.dev_addr(),
                port_payload.frm_payload,
            )
        }
        Some(_) => Payload::from_slice(alloc, frame.f_opts()),
        None => Payload::from_slice(alloc, frame.f_opts()),
    }
}

// The payload of a frame with this address, decrypted under this key and the counter of the
// session's last uplink.
fn decrypted(
    alloc: Global,
    key: &Key,
    session: &CurrentSession,
    dev_addr: DevAddr,
    frm_payload: &[u8],
) -> Result<Payload, AllocError>
    requires { length frm_payload.now ≤ LONGEST_PAYLOAD }
    ensures { IfOk result (λ bytes. bytes
        ≡ crypted_payload key.now.0 Up dev_addr.0 session.now.last_up frm_payload.now) }
{
    let mut bytes = Vec::from_slice(alloc, frm_payload)?;
    crypt_payload(
        key,
        Direction::Up,
        dev_addr,
        session.last_up,
        bytes.as_mut_slice(),
    );
    Ok(Payload::new(bytes).unwrap())
}

// Reports the commands that the network doesn't answer itself, if there are any.
fn report_commands(
    alloc: Global,
    device: &Device,
    effects: &mut Effects,
    session: &CurrentSession,
    commands: &[u8],
) -> Result<(), AllocError>
    requires room { length effects.old < Effects.MOST }
    requires short { length commands.now ≤ 242 }
    ensures told { OnOk result (effects.new
        ≡ effects.old ++ mac_report device.now session.now (reported_bytes commands.now)) }
    ensures one { OnOk result (length effects.new ≤ length effects.old + 1) }
{
    let told = read_reported(alloc, commands)?;
    if told.is_empty() {
        return Ok(());
    }
    effects.tell(
        device,
        Report::Mac {
            join_nonce: session.session.join_nonce,
            commands: told,
        },
    )
}

// What the uplink with these MAC commands asks of the network.
fn demand_of(heard: &HeardUplink<'_>, commands: &[u8]) -> Demand
    ensures { result ≡ record {
      confirmed = heard.now.uplink.now.frame.confirmed;
      adr_ack_req = heard.now.uplink.now.adr_ack_req;
      link_check = asks_link_check commands.now;
      best = heard.now.best;
      copies = heard.now.copies;
    } }
{
    Demand {
        confirmed: heard.uplink.frame.confirmed(),
        adr_ack_req: heard.uplink.adr_ack_req,
        link_check: asks_link_check(commands),
        best: heard.best,
        copies: heard.copies,
    }
}

// ---- the payload

// Hands on the payload on an application's FPort.
fn forward(
    alloc: Global,
    device: &Device,
    effects: &mut Effects,
    session: &CurrentSession,
    heard: &HeardUplink<'_>,
) -> Result<(), AllocError>
    requires { length effects.old < Effects.MOST }
    ensures told { OnOk result (effects.new ≡ effects.old
        ++ forward_effects heard.now.uplink.now.frame.dev_addr device.now session.now
        heard.now.copies heard.now.best heard.now.uplink.now.frame.contents.port_payload) }
    ensures one { OnOk result (length effects.new ≤ length effects.old + 1) }
{
    let frame = &heard.uplink.frame;
    let Some(port_payload) = frame.port_payload() else {
        return Ok(());
    };
    let Some(port) = Port::new(u64::from(port_payload.f_port)) else {
        return Ok(());
    };
    let key = &session.session.app_skey;
    let payload = decrypted(
        alloc,
        key,
        session,
        frame.dev_addr(),
        port_payload.frm_payload,
    )?;
    effects.push(Effect::Forward {
        application: device.application,
        session: SessionName {
            dev_eui: device.dev_eui,
            join_nonce: session.session.join_nonce,
        },
        counter: session.last_up,
        port,
        payload,
        copies: heard.copies,
        best: heard.best.reception,
    })
}
