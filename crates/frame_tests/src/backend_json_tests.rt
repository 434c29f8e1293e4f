// The texts of joins, byte for byte, and texts that are no message. Frames, keys and MICs were made
// by Python's `cryptography`.
use backend_json::{answer_text, join_req_text, read_join_ans, read_join_req};
use join_server::{JoinAsk, JoinRequestBytes, JoinState, RxDelay};
use lw_types::{DevAddr, Eui, JoinNonce, Key, NetId, Refusal};
use std::alloc::{AllocError, Global};

const REQUEST: [u8; 23] = *b"\x00\x08\x07\x06\x05\x04\x03\x02\x01\x18\x17\x16\x15\x14\x13\
       \x12\x11\x01\x00\xAA\xBB\xCC\xDD";

const QUESTION: &str = concat!(
    r#"{"CFList":"184F84E85684B85E84886684586E8400","DLSettings":"00","DevAddr":"54000001","#,
    r#""DevEUI":"1112131415161718","MACVersion":"1.0.4","MessageType":"JoinReq","#,
    r#""PHYPayload":"00080706050403020118171615141312110100AABBCCDD","ProtocolVersion":"1.0","#,
    r#""ReceiverID":"0102030405060708","RxDelay":1,"SenderID":"00002A","TransactionID":2}"#,
);

// The same question, with the MIC of its Join-Request.
const SIGNED: &str = concat!(
    r#"{"CFList":"184F84E85684B85E84886684586E8400","DLSettings":"00","DevAddr":"54000001","#,
    r#""DevEUI":"1112131415161718","MACVersion":"1.0.4","MessageType":"JoinReq","#,
    r#""PHYPayload":"000807060504030201181716151413121101009E7419CE","ProtocolVersion":"1.0","#,
    r#""ReceiverID":"0102030405060708","RxDelay":1,"SenderID":"00002A","TransactionID":2}"#,
);

const GRANTED: &str = concat!(
    r#"{"AppSKey":{"AESKey":"65A2E3FC3F681266CA0F9088A6AD5FE4"},"MessageType":"JoinAns","#,
    r#""NwkSKey":{"AESKey":"38F19F1F7C923B7B392DFDBECE201B6B"},"#,
    r#""PHYPayload":"20964FABE971240AB8E37F72AEFDC360B6FD3C4BE3FB883149AF03F6CC89235E53","#,
    r#""ProtocolVersion":"1.0","ReceiverID":"00002A","Result":{"Description":"","#,
    r#""ResultCode":"Success"},"SenderID":"0102030405060708","TransactionID":2}"#,
);

const NO_QUESTION: &str = concat!(
    r#"{"MessageType":"JoinAns","ProtocolVersion":"1.0","ReceiverID":"000000","#,
    r#""Result":{"Description":"bad message","ResultCode":"Other"},"#,
    r#""SenderID":"0102030405060708","TransactionID":0}"#,
);

const NESTED: &str = concat!(
    "[[[[[[[[[[[[[[[[[[[[[[[[[[[[[[[[[[[[[[[[[[[[[[[[[[[[[[[[[[[[[[[[[[[[[[[[[[[[[[[[[[[[[[[[",
    "[[[[[[[[[[[[[[[[[[[[[[[[[[[[[[[[[[[[[[[[[[[[[[[[[[[[[[[[[[[[[[[[[[[[[[[[[[[[[[[[[[[[[[[[",
    "[[[[[[[[[[[[[[[[[[[[[[[[]]]]]]]]]]]]]]]]]]]]]]]]]]]]]]]]]]]]]]]]]]]]]]]]]]]]]]]]]]]]]]]]",
    "]]]]]]]]]]]]]]]]]]]]]]]]]]]]]]]]]]]]]]]]]]]]]]]]]]]]]]]]]]]]]]]]]]]]]]]]]]]]]]]]]]]]]]]]",
    "]]]]]]]]]]]]]]]]]]]]]]]]]]]]]]]]]]]]]]]]]]]]]]]]",
);

fn state(dev_eui: u64, join_eui: u64, dev_nonce: Option<u16>) -> JoinState {
    JoinState {
        dev_eui: Eui(dev_eui),
        join_eui: Eui(join_eui),
        app_key: Key(*b"\x2B\x7E\x15\x16\x28\xAE\xD2\xA6\xAB\xF7\x15\x88\x09\xCF\x4F\x3C"),
        dev_nonce,
        join_nonce: None,
    }
}

fn known_state() -> JoinState {
    state(DEVICE, SERVER, None)
}

fn ask() -> Option<JoinAsk> {
    Some(JoinAsk {
        net_id: NetId::new(0x2A)?,
        dev_addr: DevAddr(0x5400_0001),
        dl_settings: 0,
        rx_delay: RxDelay::new(1)?,
        request: JoinRequestBytes::new(REQUEST)?,
        transaction: 2,
    })
}

// Whether this text is read as the question.
fn is_read(alloc: Global, text: &str) -> bool {
    match (read_join_req(alloc, text), ask()) {
        (Ok(found), Some(ask)) => found == ask,
        _ => false,
    }
}

fn is_written(alloc: Global) -> bool {
    let Some(ask) = ask() else {
        return false;
    };
    match join_req_text(alloc, &ask) {
        Ok(text) => text.as_str() == QUESTION,
        Err(_) => false,
    }
}

#[test]
fn a_question_is_written_and_read(rt: HostRuntime) {
    assert!(rt; is_written(rt.alloc()));
    assert!(rt; is_read(rt.alloc(), QUESTION));
}

// Whether the answer to a question is this text. A new state is returned exactly if the answer
// grants a session; it has the new DevNonce.
fn answers(alloc: Global, state: &JoinState, question: &str, answer: &str) -> bool {
    let Ok(read) = read_join_ans(alloc, answer) else {
        return false;
    };
    let Ok(answered) = answer_text(alloc, state, question) else {
        return false;
    };
    let (text, after) = answered;
    let is_kept = match after {
        Some(after) => read.result.is_ok() && after.dev_nonce == Some(1),
        None => read.result.is_err(),
    };
    is_kept && text.as_str() == answer
}

#[test]
fn a_join_is_granted(rt: HostRuntime) {
    assert!(rt; answers(rt.alloc(), &known_state(), SIGNED, GRANTED));
}

const UNKNOWN_DEVICE: &str = concat!(
    r#"{"MessageType":"JoinAns","ProtocolVersion":"1.0","ReceiverID":"00002A","#,
    r#""Result":{"Description":"unknown device","ResultCode":"UnknownDevEUI"},"#,
    r#""SenderID":"0102030405060708","TransactionID":2}"#,
);

const WRONG_JOIN_EUI: &str = concat!(
    r#"{"MessageType":"JoinAns","ProtocolVersion":"1.0","ReceiverID":"00002A","#,
    r#""Result":{"Description":"wrong join eui","ResultCode":"JoinReqFailed"},"#,
    r#""SenderID":"0102030405060708","TransactionID":2}"#,
);

const BAD_MIC: &str = concat!(
    r#"{"MessageType":"JoinAns","ProtocolVersion":"1.0","ReceiverID":"00002A","#,
    r#""Result":{"Description":"bad mic","ResultCode":"MICFailed"},"#,
    r#""SenderID":"0102030405060708","TransactionID":2}"#,
);

const DEV_NONCE_USED: &str = concat!(
    r#"{"MessageType":"JoinAns","ProtocolVersion":"1.0","ReceiverID":"00002A","#,
    r#""Result":{"Description":"dev nonce used","ResultCode":"JoinReqFailed"},"#,
    r#""SenderID":"0102030405060708","TransactionID":2}"#,
);

const JOIN_NONCE_SPENT: &str = concat!(
    r#"{"MessageType":"JoinAns","ProtocolVersion":"1.0","ReceiverID":"00002A","#,
    r#""Result":{"Description":"join nonce spent","ResultCode":"JoinReqFailed"},"#,
    r#""SenderID":"0102030405060708","TransactionID":2}"#,
);

const DEVICE: u64 = 0x1112_1314_1516_1718;

const SERVER: u64 = 0x0102_0304_0506_0708;

// DevEUI, JoinEUI and last DevNonce, a question and its answer.
const CAUSES: &[(u64, u64, Option<u16>, &str, &str)] = &[
    (DEVICE + 1, SERVER + 1, None, QUESTION, UNKNOWN_DEVICE),
    (DEVICE, SERVER + 1, None, QUESTION, WRONG_JOIN_EUI),
    (DEVICE, SERVER, Some(1), QUESTION, BAD_MIC),
    (DEVICE, SERVER, Some(1), SIGNED, DEV_NONCE_USED),
];

// The rows of the table that are wrong, one line each.
fn wrong_causes(alloc: Global) -> Result<String, Refusal> {
    let mut wrong = String::new(alloc);
    for (number, (dev_eui, join_eui, dev_nonce, question, wanted)) in CAUSES.iter().enumerate() {
        let state = state(*dev_eui, *join_eui, *dev_nonce);
        if !answers(alloc, &state, question, wanted) {
            let (got, _) = answer_text(alloc, &state, question)?;
            let line = format!(in alloc;
                "\nbackend_json_tests.rt CAUSES {number}: wanted {wanted}, got {got}"
            )?;
            wrong.push_str(&line)?;
        }
    }
    Ok(wrong)
}

#[test]
fn a_join_is_refused_for_its_first_cause(rt: HostRuntime) {
    let wrong = wrong_causes(rt.alloc()).expect(&rt, "memory");
    assert!(rt; wrong.is_empty(), "{wrong}");
}

#[test]
fn the_last_join_nonce_is_granted_once(rt: HostRuntime) {
    let mut spent = known_state();
    spent.join_nonce = JoinNonce::new(16_777_215);
    assert!(rt; answers(rt.alloc(), &spent, SIGNED, JOIN_NONCE_SPENT));
}

// Whether a text is answered as no question, and no new state is returned.
fn is_no_question(alloc: Global, text: &str) -> bool {
    match answer_text(alloc, &known_state(), text) {
        Ok((answer, None)) => answer.as_str() == NO_QUESTION,
        _ => false,
    }
}

const NO_QUESTIONS: &[&str] = &["", "{}", "no JSON", "[1]", r#"{"DLSettings":"00"}"#, NESTED];

// The signed question without its list of channels, which comes first.
const WITHOUT_LIST: &str = concat!(
    r#""DLSettings":"00","DevAddr":"54000001","DevEUI":"1112131415161718","#,
    r#""MACVersion":"1.0.4","MessageType":"JoinReq","#,
    r#""PHYPayload":"000807060504030201181716151413121101009E7419CE","ProtocolVersion":"1.0","#,
    r#""ReceiverID":"0102030405060708","RxDelay":1,"SenderID":"00002A","TransactionID":2}"#,
);

// Beginnings of other questions: without the list, with another list, and with this list.
const OTHER_LISTS: &[&str] = &[
    "{",
    r#"{"CFList":"","#,
    r#"{"CFList":"184F84E85684B85E84886684586E84","#,
    r#"{"CFList":"184F84E85684B85E84886684586E840000","#,
    r#"{"CFList":"184F84E85684B85E84886684586E8401","#,
    r#"{"CFList":"184f84e85684b85e84886684586e8400","#,
    r#"{"CFList":"FF000000000000000000000000000000","#,
    r#"{"CFList":null,"#,
    r#"{"CFList":"184F84E85684B85E84886684586E8400","CFList":"","#,
];

const THE_LIST: &[&str] = &[
    r#"{"CFList":"184F84E85684B85E84886684586E8400","#,
    r#"{"CFList":"","CFList":"184F84E85684B85E84886684586E8400","#,
];

fn is_no_question_behind(alloc: Global, front: &str) -> bool {
    match format!(in alloc; "{front}{WITHOUT_LIST}") {
        Ok(text) => is_no_question(alloc, &text),
        Err(_) => false,
    }
}

fn is_granted_behind(alloc: Global, front: &str) -> bool {
    match format!(in alloc; "{front}{WITHOUT_LIST}") {
        Ok(text) => answers(alloc, &known_state(), &text, GRANTED),
        Err(_) => false,
    }
}

#[test]
fn a_question_names_the_channels_exactly(rt: HostRuntime) {
    for front in OTHER_LISTS {
        assert!(rt; is_no_question_behind(rt.alloc(), front), "{front}");
    }
    for front in THE_LIST {
        assert!(rt; is_granted_behind(rt.alloc(), front), "{front}");
    }
}

// The same answer with an accept that names no channels.
const SHORT_ACCEPT: &str = concat!(
    r#"{"AppSKey":{"AESKey":"65A2E3FC3F681266CA0F9088A6AD5FE4"},"MessageType":"JoinAns","#,
    r#""NwkSKey":{"AESKey":"38F19F1F7C923B7B392DFDBECE201B6B"},"#,
    r#""PHYPayload":"2040A8AE29D75BA396C02EF9C963CAD8BE","ProtocolVersion":"1.0","#,
    r#""ReceiverID":"00002A","Result":{"Description":"","ResultCode":"Success"},"#,
    r#""SenderID":"0102030405060708","TransactionID":2}"#,
);

#[test]
fn an_accept_has_33_bytes(rt: HostRuntime) {
    let alloc = rt.alloc();
    assert!(rt; read_join_ans(alloc, GRANTED).is_ok());
    assert!(rt; read_join_ans(alloc, SHORT_ACCEPT).err() == Some(Refusal::BadMessage));
}

#[test]
fn a_text_that_is_no_question_is_answered(rt: HostRuntime) {
    for text in NO_QUESTIONS {
        assert!(rt; is_no_question(rt.alloc(), text), "{text}");
    }
}

// A question up to its last members.
const FRONT: &str = concat!(
    r#"{"CFList":"184F84E85684B85E84886684586E8400","DLSettings":"00","DevAddr":"54000001","#,
    r#""DevEUI":"1112131415161718","MACVersion":"1.0.4","MessageType":"JoinReq","#,
    r#""PHYPayload":"00080706050403020118171615141312110100AABBCCDD","ProtocolVersion":"1.0","#,
    r#""ReceiverID":"0102030405060708","#,
);

// A question whose last members are these.
fn question_with(alloc: Global, last: &str) -> Result<String, AllocError> {
    format!(in alloc; "{FRONT}{last}")
}

const WRONG_ENDS: &[&str] = &[
    r#""RxDelay":16,"SenderID":"00002A","TransactionID":2}"#,
    r#""RxDelay":0,"SenderID":"00002A","TransactionID":2}"#,
    r#""RxDelay":1.0,"SenderID":"00002A","TransactionID":2}"#,
    r#""RxDelay":1e0,"SenderID":"00002A","TransactionID":2}"#,
    r#""RxDelay":1,"SenderID":"00002a","TransactionID":2}"#,
    r#""RxDelay":1,"SenderID":"000040","TransactionID":2}"#,
    r#""RxDelay":1,"SenderID":"02A","TransactionID":2}"#,
    r#""RxDelay":1,"SenderID":"00002A","TransactionID":-1}"#,
    r#""RxDelay":1,"SenderID":"00002A","TransactionID":4294967296}"#,
    r#""RxDelay":1,"SenderID":"00002A","TransactionID":2,"Z":0}"#,
    r#""RxDelay":1,"SenderID":"00002A"}"#,
    r#""RxDelay":1,"SenderID":"00002A","TransactionID":2,"RxDelay":16}"#,
];

fn is_wrong_end(alloc: Global, last: &str) -> bool {
    match question_with(alloc, last) {
        Ok(text) => is_no_question(alloc, &text),
        Err(_) => false,
    }
}

#[test]
fn each_member_has_one_form(rt: HostRuntime) {
    for last in WRONG_ENDS {
        assert!(rt; is_wrong_end(rt.alloc(), last), "{last}");
    }
}

const RIGHT_ENDS: &[&str] = &[
    r#""SenderID":"00002A", "TransactionID" : 2, "RxDelay":1 } "#,
    r#""RxDelay":9,"SenderID":"00002A","TransactionID":2,"RxDelay":1}"#,
];

fn is_right_end(alloc: Global, last: &str) -> bool {
    match question_with(alloc, last) {
        Ok(text) => is_read(alloc, &text),
        Err(_) => false,
    }
}

#[test]
fn order_and_white_space_are_free(rt: HostRuntime) {
    for last in RIGHT_ENDS {
        assert!(rt; is_right_end(rt.alloc(), last), "{last}");
    }
}
