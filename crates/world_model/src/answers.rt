// Answers, compared.
use world::{Answer, EventTurn};

// Whether these events and their turns are the same.
fn are_same(turns: &[EventTurn], others: &[EventTurn]) -> bool {
    for (one, other) in turns.iter().zip(others) {
        if one.event != other.event || one.turn != other.turn || one.closings != other.closings {
            return false;
        }
    }
    turns.len() == others.len()
}

/// Whether the answers are the same, tables by their devices.
pub fn same(one: &Answer, other: &Answer) -> bool {
    match (one, other) {
        (
            Answer::Turn { turn, closings },
            Answer::Turn {
                turn: other_turn,
                closings: other_closings,
            },
        ) => turn == other_turn && closings == other_closings,
        (
            Answer::Turns { turns, fault },
            Answer::Turns {
                turns: other_turns,
                fault: other_fault,
            },
        ) => are_same(turns, other_turns) && fault == other_fault,
        (Answer::Taken(a), Answer::Taken(b)) => a == b,
        (Answer::Begun(a), Answer::Begun(b)) => a == b,
        (Answer::Idle, Answer::Idle) => true,
        (Answer::Called, Answer::Called) => true,
        (Answer::Armed, Answer::Armed) => true,
        (Answer::Released(a), Answer::Released(b)) => a == b,
        (Answer::Emitted(a), Answer::Emitted(b)) => a == b,
        (
            Answer::Opened { devices, seq },
            Answer::Opened {
                devices: other_devices,
                seq: other_seq,
            },
        ) => devices == other_devices && seq == other_seq,
        (
            Answer::Listed { table, seq },
            Answer::Listed {
                table: other_table,
                seq: other_seq,
            },
        ) => table.devices() == other_table.devices() && seq == other_seq,
        (Answer::Refused(a), Answer::Refused(b)) => a == b,
        _ => false,
    }
}
