// Names in a picture: whatever their bytes are, what is drawn is text of XML.
use crate::printing::{SPACE, replace, spaced};
use crate::run::Run;

// As much of a name is drawn, with up to six bytes for each of its own.
pub const DRAWN: usize = 200;

const PAGE: usize = 1200;

const DELETE: u8 = 127;

// Bytes of UTF-8: those that follow the first one of a letter, and the first ones of letters with two and with three
// bytes. Others start letters that their first byte alone does not tell from what XML refuses.
const FOLLOWING: u8 = 128;

const BEYOND_FOLLOWING: u8 = 192;

const FIRST_OF_TWO: u8 = 194;

const BEYOND_TWO: u8 = 224;

const FIRST_OF_THREE: u8 = 225;

const BEYOND_THREE: u8 = 237;

// How many bytes of a letter are to come; none after a byte that has no place.
fn after_first(byte: u8) -> Option<u64> {
    match byte {
        SPACE..DELETE => Some(0),
        FIRST_OF_TWO..BEYOND_TWO => Some(1),
        FIRST_OF_THREE..BEYOND_THREE => Some(2),
        _ => None,
    }
}

fn after(to_come: u64, byte: u8) -> Option<u64> {
    match byte {
        _ if to_come == 0 => after_first(byte),
        FOLLOWING..BEYOND_FOLLOWING => Some(to_come - 1),
        _ => None,
    }
}

fn is_text(name: &[u8]) -> bool {
    let mut to_come = 0;
    for &byte in name {
        match after(to_come, byte) {
            Some(n) => to_come = n,
            None => return false,
        }
    }
    to_come == 0
}

// What does not stand for itself is lost.
fn make_plain(name: &mut [u8]) {
    replace(name, |byte| byte < SPACE || DELETE <= byte, b'?');
}

fn escaped(name: &[u8]) {
    let mut out = [0u8; PAGE];
    let n = text::escape(&mut out, 0, name);
    text::print_page(&out, n);
}

// A name that is no text is made plain.
fn made_legible(name: &mut [u8]) {
    if !is_text(name) {
        make_plain(name);
    }
    escaped(name);
}

// A name of up to DRAWN bytes.
pub fn legible(name: &[u8]) {
    let mut own = [0u8; DRAWN];
    let n = text::fill(&mut own, 0, b"%@", &[0], name);
    if let Some(drawn) = own.get_mut(..n) {
        made_legible(drawn);
    }
}

impl Run {
    // The name of a thread.
    pub fn legible_name(&self, id: u64) {
        let mut names = self.names;
        let its = text::nth(&names, SPACE, id as usize);
        spaced(&mut names);
        legible(&names[its.start..its.end]);
    }
}
