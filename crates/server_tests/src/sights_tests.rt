// The lines of events for operators.
use devices::{Application, SessionName};
use gateway_wire::Recipient;
use lnsd_operator::{FrameName, Sight};
use lw_types::{DevAddr, Eui, JoinNonce, Reception, Refusal};
use std::alloc::{AllocError, Global};

const GATEWAY: Eui = Eui(0xB1);

const RECEPTION: Reception = Reception {
    gateway: GATEWAY,
    frequency: 868_100_000,
    data_rate: 5,
    snr: -20,
    rssi: -95,
};

// A Join-Request and an uplink, made by an outside device (python/bozintar), and bytes that are no
// frame: what each says of itself.
const FRAMES: &[(&[u8], FrameName)] = &[
    (
        &[
            0x00, 0x08, 0x07, 0x06, 0x05, 0x04, 0x03, 0x02, 0x01, 0x18, 0x17, 0x16, 0x15, 0x14,
            0x13, 0x12, 0x11, 0x01, 0x00, 0x9E, 0x74, 0x19, 0xCE,
        ],
        FrameName::JoinRequest {
            dev_eui: Eui(0x1112_1314_1516_1718),
            dev_nonce: 1,
        },
    ),
    (
        &[
            0x40, 0x01, 0x00, 0x00, 0x54, 0x00, 0x00, 0x00, 0x07, 0x3A, 0xE4, 0x8A, 0xC4, 0x12,
            0xE3,
        ],
        FrameName::Data {
            dev_addr: DevAddr(0x5400_0001),
            f_cnt: 0,
        },
    ),
    (&[0x40, 0x01], FrameName::Other),
    (&[], FrameName::Other),
];

#[test]
fn frames_name_themselves(rt: HostRuntime) {
    for (phy_payload, wanted) in FRAMES {
        assert!(rt; FrameName::of(phy_payload) == *wanted, "{wanted:?}");
    }
}

fn joined() -> Sight {
    Sight::Joined {
        session: SessionName {
            dev_eui: Eui(0x1112_1314_1516_1718),
            join_nonce: JoinNonce::new(7).unwrap(),
        },
        gateway: GATEWAY,
    }
}

fn gateway() -> Recipient {
    Recipient::Gateway(GATEWAY)
}

fn application() -> Recipient {
    Recipient::Application(Application::new(3).unwrap())
}

fn refused(refusal: Refusal, frame: FrameName) -> Sight {
    Sight::of_copy(refusal, frame, RECEPTION)
}

fn lines(alloc: Global, sights: &[Sight]) -> Result<String, AllocError> {
    let mut text = String::new(alloc);
    for sight in sights {
        text.push_str(sight.line(alloc)?.as_str())?;
        text.push_str("\n")?;
    }
    Ok(text)
}

#[test]
fn sights_are_told_by_lines(rt: HostRuntime) {
    let sights = [
        refused(Refusal::BadMic, FRAMES[0].1),
        refused(Refusal::UnknownDevAddr, FRAMES[1].1),
        refused(Refusal::UnknownChannel, FrameName::Other),
        joined(),
        Sight::Linked(gateway()),
        Sight::TakenOver(application()),
        Sight::Ended(gateway()),
        Sight::Faulted(Some(application())),
        Sight::Faulted(None),
        Sight::Silent,
        Sight::Unlisted(gateway()),
        Sight::Dropped(gateway(), 12),
        Sight::Checkpoint,
        Sight::SlowSync(250),
    ];
    let told = lines(rt.alloc(), &sights).expect(&rt, "memory");
    assert!(rt; told.as_str() == TOLD, "{told}");
}

const TOLD: &str = "\
refused 4 BadMic join 1112131415161718 1 00000000000000B1 868100000 5 -20 -95
refused 3 UnknownDevAddr data 54000001 0 00000000000000B1 868100000 5 -20 -95
refused 24 UnknownChannel other 00000000000000B1 868100000 5 -20 -95
joined 1112131415161718 7 00000000000000B1
linked gateway 00000000000000B1
taken_over application 3
ended gateway 00000000000000B1
faulted application 3
faulted
silent
unlisted gateway 00000000000000B1
dropped gateway 00000000000000B1 12
checkpoint
slow_sync 250
";
