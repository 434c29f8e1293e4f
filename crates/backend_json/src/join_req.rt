// The question of a network: whether a device may join.
ghost use Rattle.std.specs.Prelude.{◌≡◌, ◌≢◌, ◌⊎◌, ◌↔◌, ◌<◌, ◌≤◌, ◌^◌, ℕ, codes, string_bytes, []};
ghost use Rattle.std.specs.Prelude.{◌∷◌, IfOk, IfErr, IfSome, Some, IsTrue, MatchOption};
ghost use Rattle.std.specs.Prelude.{MatchResult};
ghost use Rattle.serde_json.specs.Data.{Members, string, number, unsigned};
ghost use Rattle.serde_json.specs.View.{members_view, view};
ghost use Rattle.serde_json.specs.Written.{compact_text};
ghost use Rattle.lw_types.specs.Hex.{dev_addr_text, eui_text, hex_text, net_id_text};
ghost use Rattle.lw_types.specs.declared.refusal.Refusal.TheVariants.{OutOfMemory, BadMessage};
ghost use Rattle.lw_types.specs.declared.identifiers.DevAddr.{DevAddr};
ghost use Rattle.lw_types.specs.declared.identifiers.Eui.{Eui};
ghost use Rattle.join_server.specs.declared.ask.JoinAsk.{JoinAsk};
ghost use Rattle.join_server.specs.Request.{dev_eui_of, join_eui_of};
ghost use Rattle.backend_json.specs.Messages.{IsAsk, IsJoinReq, cf_list_member, device_members};
ghost use Rattle.backend_json.specs.Messages.{eui, join_req, network_members};

use crate::json::{Object, read_value};
use crate::members::Rest;
use join_server::{JoinAsk, JoinRequestBytes, RxDelay};
use lw_types::{DevAddr, Eui, HexArray, NetId, Refusal};
use region_eu868::CF_LIST;
use serde_json::Value;
use std::alloc::{AllocError, Global};

/// The text of a question: compact JSON, its members in the byte order of their names.
pub fn join_req_text(alloc: Global, ask: &JoinAsk) -> Result<String, Refusal>
    ensures { MatchResult result
        (λ text. (string_bytes text ≡ compact_text (join_req ask.now))
        × IsJoinReq (string_bytes text) ask.now)
        (λ e. e ≡ OutOfMemory) }
{
    Ok(ask_value(alloc, ask)?.to_string(alloc)?)
}

/// The question of a text. Any text that is no question is refused as `BadMessage`. White space and
/// the order of members are free, as in JSON, and if a member comes twice the last one counts. But
/// no other members are allowed, numbers have to be whole, and hex in upper case. The CFList has to
/// be the region's, and the PHYPayload a Join-Request of this DevEUI and JoinEUI.
pub fn read_join_req(alloc: Global, text: &str) -> Result<JoinAsk, Refusal>
    ensures found { IfOk result (λ ask. IsAsk ask × IsJoinReq text.now ask) }
    ensures refused { IfErr result (λ e. (e ≡ OutOfMemory)
        ⊎ ((e ≡ BadMessage) × ((ask : JoinAsk) → IsAsk ask → ¬ (IsJoinReq text.now ask)))) }
{
    ask_of(&read_value(alloc, text)?).ok_or(Refusal::BadMessage)
}

// The value of a question.
fn ask_value(alloc: Global, ask: &JoinAsk) -> Result<Value, AllocError>
    ensures { IfOk result (λ value. view value ≡ join_req ask.now) }
{
    Object::new(alloc)
        .text("CFList", HexArray(CF_LIST))
        .text("DLSettings", HexArray([ask.dl_settings]))
        .text("DevAddr", ask.dev_addr)
        .text("DevEUI", ask.request.dev_eui())
        .text("MACVersion", "1.0.4")
        .text("MessageType", "JoinReq")
        .text("PHYPayload", HexArray(ask.request.bytes()))
        .text("ProtocolVersion", "1.0")
        .text("ReceiverID", ask.request.join_eui())
        .number("RxDelay", ask.rx_delay.get())
        .text("SenderID", ask.net_id)
        .number("TransactionID", u64::from(ask.transaction))
        .whole()
}

// The question of the value.
fn ask_of(value: &Value) -> Option<JoinAsk>
    ensures { MatchOption result ((ask : JoinAsk) → IsAsk ask → view value.now ≢ join_req ask)
        (λ ask. IsAsk ask × (view value.now ≡ join_req ask)) }
{
    let mut rest = Rest::of(value)?;
    pass_cf_list(&mut rest)?;
    let (dl_settings, dev_addr, dev_eui) = device_fields(&mut rest)?;
    let request: JoinRequestBytes = rest.value("PHYPayload")?;
    rest.text("ProtocolVersion", "1.0")?;
    let join_eui: Eui = rest.value("ReceiverID")?;
    let (rx_delay, net_id, transaction) = network_of(&mut rest)?;
    if is_of_pair(&request, dev_eui, join_eui) {
        Some(JoinAsk {
            net_id,
            dev_addr,
            dl_settings,
            rx_delay,
            request,
            transaction,
        })
    } else {
        None
    }
}

// The CFList, which is always the same.
fn pass_cf_list(rest: &mut Rest<'_>) -> Option<()>
    ensures { MatchOption result
        ((others : Members) → members_view rest.old.members ≢ cf_list_member others)
        (λ _. members_view rest.old.members ≡ cf_list_member (members_view rest.new.members)) }
{
    let HexArray(list): HexArray<16> = rest.value("CFList")?;
    if list == CF_LIST { Some(()) } else { None }
}

// The members from DLSettings to MessageType.
fn device_fields(rest: &mut Rest<'_>) -> Option<(u8, DevAddr, Eui)>
    ensures found { IfSome result
        (λ p. members_view rest.old.members
        ≡ device_members p.0 p.1 p.2 (members_view rest.new.members)) }
    ensures only { (dl_settings : ℕ) (dev_addr : DevAddr) (dev_eui : Eui) (others : Members)
        → dl_settings < 2 ^ 8 → dev_addr.0 < 2 ^ 32 → dev_eui.0 < 2 ^ 64
        → members_view rest.old.members ≡ device_members dl_settings dev_addr dev_eui others
        → result ≡ Some (dl_settings, dev_addr, dev_eui) }
{
    let HexArray([dl_settings]): HexArray<1> = rest.value("DLSettings")?;
    let dev_addr = rest.value("DevAddr")?;
    let dev_eui = rest.value("DevEUI")?;
    rest.text("MACVersion", "1.0.4")?;
    rest.text("MessageType", "JoinReq")?;
    Some((dl_settings, dev_addr, dev_eui))
}

// The members from RxDelay on; no other follows them.
fn network_of(rest: &mut Rest<'_>) -> Option<(RxDelay, NetId, u32)>
    ensures found { IfSome result
        (λ p. members_view rest.old.members ≡ network_members p.0 p.1 p.2) }
    ensures only { (rx_delay net_id transaction : ℕ) → (1 ≤ rx_delay) × (rx_delay ≤ 15)
        → net_id < 64 → transaction < 2 ^ 32
        → members_view rest.old.members ≡ network_members rx_delay net_id transaction
        → result ≡ Some (rx_delay, net_id, transaction) }
{
    let rx_delay = RxDelay::new(rest.number("RxDelay")?)?;
    let (net_id, transaction) = rest.sender()?;
    Some((rx_delay, net_id, transaction))
}

// Whether the device asks this join server.
fn is_of_pair(request: &JoinRequestBytes, dev_eui: Eui, join_eui: Eui) -> bool
    ensures { IsTrue result ↔ ((dev_eui.0 ≡ dev_eui_of request.now)
        × (join_eui.0 ≡ join_eui_of request.now)) }
{
    request.dev_eui() == dev_eui && request.join_eui() == join_eui
}
