//! The formats of the links: frames for gateways, lines from applications and to them, and the list
//! of a network's devices.
#![tactic(auto)]

mod answer;
mod downlink;
mod emission;
mod field;
pub mod laws;
mod list;
mod recipient;
mod report;
mod request;
mod uplink;
mod word_values;

pub use answer::{
    ANSWER, AnswerFrame, LONGEST_ANSWER, LONGEST_ANSWER_FRAME, answer_frame, put_refusal,
};
pub use downlink::{DOWNLINK, LONGEST_WIRE_FRAME, WireFrame};
pub use emission::{Emission, app_line, gateway_bytes, put_effect};
pub use list::{device_line, last_line, list_text};
pub use recipient::Recipient;
pub use request::{Request, read_line, read_request};
pub use word_values::{next_ranged, next_value};
