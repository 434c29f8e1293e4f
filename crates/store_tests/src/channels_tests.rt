// A store that was written before devices had eight channels. Its bytes were laid out by hand, from
// the format as it was; the frames were made by Python's `cryptography`.
use devices::Channels;
use disk::{Image, MemDisk, Sim};
use lw_types::{Refusal, read_hex};
use sessions::Batch;
use std::alloc::Global;
use store::{Store, open};
use test_stores::devices_under_test::{add, heard_on};
use test_stores::images_under_test::{OLD_FRONT, add_batch_of, disk_of};
use test_stores::stores_under_test::{ALL, begin_commit};

// The entry of the device that joins, after its first join and the uplink 0 of its session. The
// byte before that is 01.
const IN_USE: &str = concat!(
    "0100000061",
    "111213141516171801020304050607082B7E151628AED2A6ABF7158809CF4F3C",
    "03000101000100000101000001",
    "38F19F1F7C923B7B392DFDBECE201B6B65A2E3FC3F681266CA0F9088A6AD5FE4",
    "0000000000000000000000000000000000000000",
);

fn store_before(alloc: Global) -> Result<Store<MemDisk>, Refusal> {
    let mut bytes = OLD_FRONT.to_vec(alloc)?;
    add_batch_of(&mut bytes, (1, 1), &read_hex(alloc, IN_USE)?)?;
    open(alloc, disk_of(alloc, bytes)?)
}

// The channels of the session in use and of the pending one.
type Given = (Option<Channels>, Option<Channels>);

fn given(store: &Store<MemDisk>) -> Given {
    let [device] = store.table().devices() else {
        return (None, None);
    };
    let in_use = match device.activation.current() {
        Some(current) => Some(current.session.channels),
        None => None,
    };
    let pending = match device.activation.pending() {
        Some(session) => Some(session.channels),
        None => None,
    };
    (in_use, pending)
}

// A frame that comes on a channel is decided and committed.
fn serve(
    alloc: Global,
    store: &mut Store<MemDisk>,
    digits: &str,
    frequency: u32,
) -> Result<(), Refusal> {
    let mut batch = Batch::new(alloc)?;
    let mut table = store.table().copy()?;
    let command = heard_on(alloc, digits, frequency)?;
    add(alloc, &mut table, store.seq(), &mut batch, command)?;
    begin_commit(alloc, store, batch, ALL)
}

// A frame, its channel, its refusal, and the channels of the sessions after it.
type Step = (&'static str, u32, Option<Refusal>, Given);

// The store after a step and a crash, if both are as they have to be.
fn after(alloc: Global, mut store: Store<MemDisk>, step: &Step) -> Result<Store<MemDisk>, Refusal> {
    let (digits, frequency, refusal, wanted) = *step;
    let served = serve(alloc, &mut store, digits, frequency);
    let mut disk = store.close();
    disk.crash(&Image::Fill(0xA5));
    let store = open(alloc, disk)?;
    if served.err() == refusal && given(&store) == wanted {
        Ok(store)
    } else {
        Err(Refusal::OutOfStep)
    }
}

const THREE: Option<Channels> = Some(Channels::Three);

const EIGHT: Option<Channels> = Some(Channels::Eight);

// An uplink on a first channel and one on another; a join on another and on a first one, which
// gives eight; the old session still has three, and the new one begins on a later channel.
const STEPS: &[Step] = &[
    ("8001000054000100F640816E", 868_300_000, None, (THREE, None)),
    (
        "400100005400020001F15AFC32C0",
        867_100_000,
        Some(Refusal::UnknownChannel),
        (THREE, None),
    ),
    (
        "00080706050403020118171615141312110200C13BE455",
        867_100_000,
        Some(Refusal::UnknownChannel),
        (THREE, None),
    ),
    (
        "00080706050403020118171615141312110200C13BE455",
        868_500_000,
        None,
        (THREE, EIGHT),
    ),
    (
        "400100005400020001F15AFC32C0",
        867_300_000,
        Some(Refusal::UnknownChannel),
        (THREE, EIGHT),
    ),
    (
        "40020000540000000104F0470207",
        867_900_000,
        None,
        (EIGHT, None),
    ),
];

fn goes_on(alloc: Global) -> Result<bool, Refusal> {
    let mut store = store_before(alloc)?;
    if given(&store) != (THREE, None) {
        return Ok(false);
    }
    for step in STEPS {
        store = after(alloc, store, step)?;
    }
    Ok(true)
}

#[test]
fn a_store_of_three_channels_goes_on_with_eight(rt: HostRuntime) {
    assert!(rt; goes_on(rt.alloc()) == Ok(true));
}
