// Names that may greet, and how fast copies may come.
use crate::lives::{live_beside, new_store};
use crate::talk::{answer, connect, ends, order};
use lnsd_life::{NameList, NameListFault, NameSource, NobodyTold, OpenGate, Order, RELOADED};
use lnsd_links::{Allowance, CopyCount, CopyRate};
use lw_types::Refusal;
use session_core::Moment;
use std::alloc::Global;
use std::net::{Net, SocketAddr, TcpListener, TcpStream};
use std::os::unix::net;
use std::rt::{Clock, Files};
use std::sync::Wait;
use std::sync::atomic::AtomicU64;
use std::sync::atomic::Ordering::SeqCst;
use std::thread::Threads;

/// The names that may greet: one text after the other, the last one again and again.
#[derive(Drop)]
pub struct TextNames<'a> {
    alloc: Global,
    texts: &'a [&'a str],
    reads: AtomicU64,
}

impl<'a> NameSource for TextNames<'a> {
    ghost use Rattle.std.specs.Prelude.{⊤};

    // Any result: which text is read depends on a counter, which has no model here.
    ghost gives = { λ _ _. ⊤ };

    fn read(&self) -> Result<NameList, NameListFault> {
        let number = self.reads.fetch_add(1, SeqCst) as usize;
        match self.texts.get(number).or(self.texts.last()) {
            Some(text) => NameList::read(self.alloc, text),
            None => Err(NameListFault::File),
        }
    }
}

// Texts, and how many names each lists, or why it isn't taken.
const LISTS: &[(&str, Result<usize, NameListFault>)] = &[
    ("", Ok(0)),
    ("\n\n", Ok(0)),
    ("# gateways\ngateway 00000000000000B1\n\n#gateway\n", Ok(1)),
    (
        "gateway 00000000000000B1\ngateway 00000000000000B1\napplication 0\napplication 15",
        Ok(3),
    ),
    (
        "gateway FFFFFFFFFFFFFFFF\ngateway 0000000000000000\napplication 3\napplication 3\n",
        Ok(3),
    ),
    ("gateway 00000000000000b1", Err(NameListFault::Line(1))),
    ("\ngateway 0000000000000B1\n", Err(NameListFault::Line(2))),
    ("gateway 00000000000000B1 \n", Err(NameListFault::Line(1))),
    ("gateway  00000000000000B1\n", Err(NameListFault::Line(1))),
    (" #\n", Err(NameListFault::Line(1))),
    ("application 3\r\n", Err(NameListFault::Line(1))),
    (
        "application 0\napplication 16\n",
        Err(NameListFault::Line(2)),
    ),
    ("application 03\n", Err(NameListFault::Line(1))),
    ("application\n", Err(NameListFault::Line(1))),
    ("Gateway 00000000000000B1\n", Err(NameListFault::Line(1))),
    ("gateway00000000000000B1\n", Err(NameListFault::Line(1))),
];

#[test]
fn lists_are_read(rt: HostRuntime) {
    for (text, wanted) in LISTS {
        let read = NameList::read(rt.alloc(), text).map(|list| list.count());
        assert!(rt; read == *wanted, "{text:?}: {read:?}");
    }
}

// A list of this number of gateways, each twice.
fn gateways(alloc: Global, count: u64) -> Result<String, Refusal> {
    let mut text = String::new(alloc);
    for _ in 0..2 {
        for number in 0..count {
            text.push_str(format!(in alloc; "gateway {number:016X}\n")?.as_str())?;
        }
    }
    Ok(text)
}

#[test]
fn sixty_four_gateways_are_listed(rt: HostRuntime) {
    let most = gateways(rt.alloc(), 64).expect(&rt, "memory");
    let read = NameList::read(rt.alloc(), most.as_str()).map(|list| list.count());
    assert!(rt; read == Ok(64), "{read:?}");
    let more = gateways(rt.alloc(), 65).expect(&rt, "memory");
    let read = NameList::read(rt.alloc(), more.as_str()).map(|list| list.count());
    assert!(rt; read == Err(NameListFault::Gateways), "{read:?}");
}

// Payments, one after another: the moment, the number of copies, and the moment at which they may
// come if that is later. 1,000 copies a second may come, and 400 at once.
const PAYMENTS: &[(u64, u64, Option<u64>)] = &[
    (1000, 1, Some(1001)),
    (1000, 0, None),
    (1003, 4, Some(1004)),
    (1003, 3, None),
    (1003, 1, Some(1004)),
    (9000, 401, Some(1404)),
    (9000, 400, None),
    (9000, 1, Some(9001)),
    (8000, 1, Some(9001)),
    (9200, 200, None),
    (9399, 200, Some(9400)),
    (9400, 200, None),
];

// That moment, or 0 if it is out of range.
fn moment(millis: u64) -> Moment {
    Moment::new(millis).unwrap_or(Moment::new(0).unwrap())
}

#[test]
fn copies_come_at_their_rate(rt: HostRuntime) {
    let rate = CopyRate::PerSecond {
        copies: CopyCount::new(1000).unwrap(),
        burst: CopyCount::new(400).unwrap(),
    };
    let mut link = Allowance::new(rate, moment(1000)).expect(&rt, "limited");
    for (now, copies, wanted) in PAYMENTS {
        let later = link
            .pay(*copies, moment(*now))
            .err()
            .map(|later| later.get());
        assert!(rt; later == *wanted, "{copies} at {now}: {later:?}");
    }
    assert!(rt; Allowance::new(CopyRate::Unlimited, moment(0)).is_none());
}

const GATEWAY: &str = "0009 00 00000000000000B1";

const OTHER: &str = "0009 00 00000000000000B2";

const APPLICATION: &str = "0002 0203";

const BOTH: &str = "gateway 00000000000000B1\napplication 3\n";

const ONE: &str = "# B1 is replaced\ngateway 00000000000000B2\napplication 3\n";

const LISTS_OF_A_LIFE: &[&str] = &[
    BOTH,
    "gateway 00000000000000B2\ngateway\n",
    "gateway 00000000000000B2\ngateway 00000000000000B3\napplication 3\napplication 4\n",
    ONE,
];

// What a life with names answers to its operators.
#[derive(Drop)]
struct Answers {
    same: bool,
    line: String,
    places: String,
    reloaded: String,
    status: String,
}

// Links whose names are listed stay, and the others are closed; a list that isn't taken changes
// nothing; and a list closes the links that it doesn't name.
fn clients<R: Net<Listener = TcpListener, Stream = TcpStream>>(
    rt: &R,
    alloc: Global,
    address: SocketAddr,
    control: &net::SocketAddr,
) -> Result<Answers, Refusal> {
    let mut listed = connect(rt, alloc, address, GATEWAY)?;
    let _application = connect(rt, alloc, address, APPLICATION)?;
    let mut other = connect(rt, alloc, address, OTHER)?;
    let mut same = ends(&mut other);
    let line = answer(rt, alloc, control, Order::Reload)?;
    let places = answer(rt, alloc, control, Order::Reload)?;
    let mut other = connect(rt, alloc, address, OTHER)?;
    same = same && ends(&mut other);
    let reloaded = answer(rt, alloc, control, Order::Reload)?;
    same = same && ends(&mut listed);
    let _other = connect(rt, alloc, address, OTHER)?;
    let mut listed = connect(rt, alloc, address, GATEWAY)?;
    same = same && ends(&mut listed);
    let status = answer(rt, alloc, control, Order::Status)?;
    order(rt, control, Order::Stop)?;
    Ok(Answers {
        same,
        line,
        places,
        reloaded,
        status,
    })
}

// A life of four places with these lists of names.
fn live<R>(rt: &R, alloc: Global, names: &TextNames<'_>) -> Result<Answers, Refusal>
where
    R: Net<Listener = TcpListener, Stream = TcpStream> + Files + Clock + Threads + Wait + Sync,
{
    let (said, _) = live_beside(
        rt,
        alloc,
        new_store(alloc)?,
        4,
        Some(names),
        &OpenGate,
        &mut NobodyTold,
        |address, at| clients(rt, alloc, address, &at),
    )?;
    Ok(said)
}

fn names<'a>(alloc: Global, texts: &'a [&'a str]) -> TextNames<'a> {
    TextNames {
        alloc,
        texts,
        reads: AtomicU64::new(0),
    }
}

#[test]
fn listed_names_may_greet(rt: HostRuntime) {
    let names = names(rt.alloc(), LISTS_OF_A_LIFE);
    let answers = live(&rt, rt.alloc(), &names).expect(&rt, "a life");
    assert!(rt; answers.same);
    assert!(rt;
        answers.line.as_str() == "names line 2\n\n",
        "{}",
        answers.line
    );
    assert!(rt;
        answers.places.as_str() == "names places\n\n",
        "{}",
        answers.places
    );
    assert!(rt; answers.reloaded.as_str().trim_end() == RELOADED.trim_end());
    assert!(rt;
        answers.status.as_str().contains("unlisted 3\n"),
        "{}",
        answers.status
    );
    assert!(rt;
        answers.status.as_str().contains("taken_over 0\n"),
        "{}",
        answers.status
    );
}
