// Attendants, which answer operators.
ghost use Rattle.std.specs.Prelude.{◌≡◌, ◌≢◌, MatchOption};
ghost use Rattle.lnsd_operator.specs.Orders.{order_word};

use crate::context::Context;
use crate::server::LiveServer;
use crate::status::{devices_text, status_text};
use crate::{Gate, LifeClock};
use lnsd_links::{LifeStage, NameSource, is_passing};
use lnsd_operator::{ControlSocket, Order, Waiting, Watch};
use lw_types::Refusal;
use session_core::Books;
use std::io::{Read, Write};
use std::os::unix::net::UnixStream;
use std::sync::Wait;
use std::time::Duration;
use std::{io, str};

/// The first line sent to an operator who watches.
pub const WATCHING: &str = "watching\n";

/// Sent when all places for watchers are taken.
pub const BUSY: &str = "busy\n";

/// Sent when the list of the names that may greet was read again and replaced.
pub const RELOADED: &str = "reloaded\n";

/// Sent in answer to `reload` if there is no such list.
pub const NO_NAMES: &str = "no names\n";

// The empty line after the last line of the counts or of the devices. An answer without it was cut
// off.
const WHOLE: &str = "\n";

// How long an operator may read nothing, in seconds.
const PATIENCE: u64 = 2;

// How long one read of an order waits, in milliseconds. An operator who has sent nothing meanwhile
// is given up if each attendant has an operator, and otherwise after this number of such reads.
const ORDER_WAIT: u64 = 100;

const MOST_ORDER_WAITS: u32 = 20;

// How long one write to an operator who watches waits for room, in seconds.
const WATCHER_WAIT: u64 = 1;

// How long the check whether an operator is still connected waits, in milliseconds: the shortest
// time that a read may wait.
const LOOK_WAIT: u64 = 1;

// The pause after a failed accept, in seconds.
const ACCEPT_PAUSE: u64 = 1;

// The most bytes of an order, with its newline.
const LONGEST_ORDER: usize = 16;

/// An attendant of a control socket.
#[derive(Drop)]
pub struct Attendant<'x, B: Books, R: Wait, G: Gate, C: LifeClock, S: NameSource> {
    pub context: &'x Context<'x, R, G, C>,
    // Where the list of the names that may greet is read, if there is one.
    pub names: Option<&'x S>,
    pub server: &'x LiveServer<B>,
    pub control: &'x ControlSocket,
    // From 0.
    pub number: usize,
}

impl<'x, B: Books, R: Wait, G: Gate, C: LifeClock, S: NameSource> Attendant<'x, B, R, G, C, S> {
    /// Serves one operator after another, until the life is over.
    pub fn run(self) {
        for _ in self.context.rt.forever() {
            let accepted = self.control.listener.accept();
            if self.is_over() {
                break;
            }
            match accepted {
                Ok((stream, _)) => self.attend(stream),
                Err(_) => {
                    let pause = Duration::from_secs(ACCEPT_PAUSE);
                    self.control.pause.park_timeout(self.context.rt, pause);
                }
            }
        }
    }

    // Register the operator before serving it. Closing the control socket sets its flag before it
    // closes the registered connections, so check the flag after registering.
    fn attend(&self, stream: UnixStream) {
        let Ok(shown) = stream.try_clone() else {
            return;
        };
        self.control.show(self.context.rt, self.number, shown);
        if !self.is_over() {
            self.obey(stream);
        }
        self.control.hide(self.context.rt, self.number);
    }

    // An operator whose line is no order, or who doesn't read the answer, is given up.
    fn obey(&self, stream: UnixStream) {
        let (rt, alloc) = (self.context.rt, self.context.alloc);
        let order = self.read_order(&stream);
        // The time of the answer: an order may come seconds after its operator.
        let now = self.context.clock.now();
        match order {
            Some(Order::Stop) => {
                self.control.keep_waiting(rt, stream);
                self.server.end(rt);
            }
            Some(Order::Status) => {
                let text = status_text(rt, alloc, self.server, self.context.times, now);
                tell_text(&stream, text);
            }
            Some(Order::Devices) => {
                let text = devices_text(rt, alloc, self.server, self.control, now);
                tell_text(&stream, text);
            }
            Some(Order::Watch) => self.receive(&stream),
            Some(Order::Reload) => tell_text(&stream, self.reload()),
            None => {}
        }
    }

    // The order of an operator, up to a newline.
    fn read_order(&self, stream: &UnixStream) -> Option<Order> {
        let mut stream = stream;
        stream
            .set_read_timeout(Some(Duration::from_millis(ORDER_WAIT)))
            .ok()?;
        let mut line = [0u8; LONGEST_ORDER];
        let mut len: usize = 0;
        let mut quiet: u32 = 0;
        for _ in 0..MOST_ORDER_WAITS + LONGEST_ORDER as u32 {
            match stream.read(line.get_mut(len..)?) {
                Ok(0) => return None,
                Ok(count) => len = len.saturating_add(count),
                Err(error) if is_passing(error.kind()) => {
                    quiet = quiet.saturating_add(1);
                    if quiet >= MOST_ORDER_WAITS || self.control.is_crowded() {
                        return None;
                    }
                }
                Err(_) => return None,
            }
            if let Some(word) = line.get(..len)?.strip_suffix(b"\n") {
                return order_of(word);
            }
        }
        None
    }

    // Reads again the list of the names that may greet, and returns the answer. If that fails, the
    // list stays as it was. The answer takes its memory first, so that a new list is answered.
    fn reload(&self) -> Result<String, Refusal> {
        let alloc = self.context.alloc;
        let Some(source) = self.names else {
            return Ok(String::from_str(alloc, NO_NAMES)?);
        };
        let reloaded = String::from_str(alloc, RELOADED)?;
        match self.server.reload(self.context.rt, source) {
            Ok(()) => Ok(reloaded),
            Err(fault) => Ok(format!(in alloc; "{fault}\n")?),
        }
    }

    // Gives an operator who wants to watch a place, if one is free.
    fn receive(&self, stream: &UnixStream) {
        let watch = &self.control.watch;
        match watch.enter(self.context.rt) {
            Some(window) => {
                if send_text(stream, WATCHING).is_ok() {
                    self.show_all(stream, watch, window);
                }
                watch.leave(self.context.rt, window);
            }
            None => {
                let _ = send_text(stream, BUSY);
            }
        }
    }

    // Sends events until the operator has gone or the life is over. What happened before the end is
    // still sent. While nothing happens, the attendant checks each second whether the operator is
    // still connected, so that an operator who left frees the place.
    fn show_all(&self, stream: &UnixStream, watch: &Watch, window: usize) {
        if limit_waits(stream).is_err() {
            return;
        }
        for _ in self.context.rt.forever() {
            let is_last = self.is_over();
            let Some(waiting) = watch.take(self.context.rt, window) else {
                return;
            };
            if !waiting.is_empty() {
                if !self.show(stream, waiting) {
                    return;
                }
            } else if is_last || self.has_left(stream) {
                return;
            } else {
                watch.wait(self.context.rt, window);
            }
        }
    }

    // Whether an operator who watches has gone. At the end of the life this side ends the input:
    // then the operator hasn't gone, and is sent what is left.
    fn has_left(&self, stream: &UnixStream) -> bool {
        has_gone(stream) && !self.is_over()
    }

    // Whether everything is done, and operators are no longer served.
    fn is_over(&self) -> bool {
        self.server.signals.has_reached(LifeStage::Closed)
    }

    // Whether the operator took all lines. While the operator takes nothing, the attendant waits,
    // unless the life is over. If memory runs out, nothing is sent.
    fn show(&self, stream: &UnixStream, waiting: Waiting) -> bool {
        let Ok(text) = waiting.into_text(self.context.alloc) else {
            return false;
        };
        let mut stream = stream;
        let mut rest = text.as_bytes();
        for _ in self.context.rt.forever() {
            if rest.is_empty() {
                return true;
            }
            match stream.write(rest) {
                Ok(0) => return false,
                Ok(count) => rest = rest.get(count..).unwrap_or(&[]),
                Err(error) if is_passing(error.kind()) && !self.is_over() => {}
                Err(_) => return false,
            }
        }
        false
    }
}

// Limits how long writes to an operator who watches, and reads from one, wait.
fn limit_waits(stream: &UnixStream) -> io::Result<()> {
    stream.set_write_timeout(Some(Duration::from_secs(WATCHER_WAIT)))?;
    stream.set_read_timeout(Some(Duration::from_millis(LOOK_WAIT)))
}

// Whether an operator who watches has closed the connection, or sends something more.
fn has_gone(stream: &UnixStream) -> bool {
    let mut stream = stream;
    match stream.read(&mut [0u8; 1]) {
        Ok(_) => true,
        Err(error) => !is_passing(error.kind()),
    }
}

// The order of this word, if there is one.
fn order_of(word: &[u8]) -> Option<Order>
    ensures { MatchOption result ((order : Order) → word.now ≢ order_word order)
        (λ order. word.now ≡ order_word order) }
{
    match str::from_utf8(word) {
        Ok(text) => Order::of(text),
        Err(_) => None,
    }
}

// Sends the answer. If there was no memory for it, nothing is sent.
fn tell_text(stream: &UnixStream, text: Result<String, Refusal>) {
    if let Ok(text) = text
        && send_text(stream, text.as_str()).is_ok()
    {
        let _ = send_text(stream, WHOLE);
    }
}

fn send_text(stream: &UnixStream, text: &str) -> io::Result<()> {
    let mut stream = stream;
    stream.set_write_timeout(Some(Duration::from_secs(PATIENCE)))?;
    stream.write_all(text.as_bytes())
}
