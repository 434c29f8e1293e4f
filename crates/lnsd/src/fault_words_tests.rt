// The words of faults.
use gateway_server::{Fault, fail};
use lw_types::Refusal;

#[test]
fn faults_have_words(rt: HostRuntime) {
    let alloc = rt.alloc();
    let mut err = Vec::new(alloc);
    assert!(rt; fail(&mut err, &Fault::Refused(Refusal::OutOfMemory)) == 1);
    assert!(rt; fail(&mut err, &Fault::Refused(Refusal::DeviceFailed)) == 1);
    assert!(rt; fail(&mut err, &Fault::Clock) == 1);
    assert!(rt; err.as_slice() == b"lnsd: refused 30\nlnsd: refused 40\nlnsd: clock\n".as_slice());
}

#[test]
fn faults_of_changes_have_words(rt: HostRuntime) {
    let alloc = rt.alloc();
    let mut err = Vec::new(alloc);
    let text = String::from_str(alloc, "list.csv line 3: it isn't UTF-8").expect(&rt, "memory");
    assert!(rt; fail(&mut err, &Fault::List(text)) == 1);
    assert!(rt; fail(&mut err, &Fault::Slots(256)) == 1);
    assert!(rt; fail(&mut err, &Fault::NotClosed) == 1);
    assert!(rt; fail(&mut err, &Fault::Random) == 1);
    let due = b"lnsd: list.csv line 3: it isn't UTF-8\nlnsd: slots 256\nlnsd: not closed\n\
        lnsd: random\n";
    assert!(rt; err.as_slice() == due.as_slice());
}
