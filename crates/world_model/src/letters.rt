// Steps that are letters, and scripts that are words made of these letters.
use crate::steps::step_of;
use lw_types::Refusal;
use std::alloc::Global;
use world::Step;

// Each letter with the line of its step. The Join-Request of the device of the DevEUI 0 was made by
// Python's `cryptography`.
const LETTERS: &str = "\
# Two devices of the script.
a device 0
b device 1
# Three sizes of a batch.
t take 1
s take 2
T take 64
N next 64
p checkpoint
c call
f fail
r release
e emit
# Three images of a crash.
o crash old
n crash new
i crash fill
l list
# Copies of the Join-Request of the device of the DevEUI 0, of which the second joins the first
# and the third doesn't; one on no channel; and a moment.
h hear 0 00000000000000B1 868100000 5 -20 -95 50000 00010000000000000000000000000000000100D684CEBF
g hear 199 00000000000000B2 868100000 5 -20 -95 50000 00010000000000000000000000000000000100D684CEBF
G hear 200 00000000000000B2 868100000 5 -20 -95 50000 00010000000000000000000000000000000100D684CEBF
u hear 200 00000000000000B1 868200000 5 -20 -95 50000 00010000000000000000000000000000000100D684CEBF
k tick 400
# What a gateway says on its link: its greeting, and a copy of that Join-Request, cut in two.
w piece 7 0 00090000000000000000B1002D0100000000000000B133BE27A005
W piece 7 150 FFECFFA10000C35000010000000000000000000000000000000100D684CEBF
# An item and a MAC command for that device.
q queue 200 3 0000000000000000 9 7 u 06
m mac 200 3 0000000000000000 06
# A device that joins is brought; its Join-Requests of the DevNonces 1, 2 and 3; and a frame of no
# device.
J provision 0 3 1112131415161718 0102030405060708 2B7E151628AED2A6ABF7158809CF4F3C 0 1
1 frame 0 000807060504030201181716151413121101009E7419CE
2 frame 0 00080706050403020118171615141312110200C13BE455
3 frame 0 00080706050403020118171615141312110300E85E42DA
x frame 0 40F17DBE4900020001954378762B11FF0D
";

// The step of a letter.
fn step_of_letter(alloc: Global, script: u32, letter: char) -> Result<Step, Refusal> {
    for line in LETTERS.split('\n') {
        if line.starts_with(letter) {
            return step_of(alloc, script, line.get(2..).unwrap_or(""));
        }
    }
    Err(Refusal::Damaged)
}

/// Appends the steps of these letters to those of a script.
pub fn add_letters(
    alloc: Global,
    steps: &mut Vec<Step>,
    script: u32,
    letters: &str,
) -> Result<(), Refusal> {
    for letter in letters.chars() {
        steps.push(step_of_letter(alloc, script, letter)?)?;
    }
    Ok(())
}

/// Appends a script: its opening, two steps, and its end.
pub fn add_script(
    alloc: Global,
    steps: &mut Vec<Step>,
    script: u32,
    opening: &str,
    middle: [char; 2],
    end: &str,
) -> Result<(), Refusal> {
    add_letters(alloc, steps, script, opening)?;
    for letter in middle {
        steps.push(step_of_letter(alloc, script, letter)?)?;
    }
    add_letters(alloc, steps, script, end)
}
