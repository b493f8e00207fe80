// What lending costs: a number, and four values.
use crate::line;

// Does the call's answer agree with the line, `l INPUT MEMBER NUMBER FEE BASE WORDS LABELS`?
pub(crate) fn agrees(text: &[u8], end: usize) -> bool {
    let mut words = [0u32; 1024];
    let n = line::words_between(text, 2, end, &mut words);
    let member = line::number_behind(text, end, 1, 16) == 1;
    let (number, fee) = match tariff::lending_fee(&words[..n], member) {
        Ok(fee) => (0, Some(fee)),
        Err(refusal) => (u64::from(refusal.number()), None),
    };
    number == line::number_behind(text, end, 18, 2)
        && fee.map_or(0, |f| f.fee) == line::number_behind(text, end, 21, 16)
        && fee.map_or(0, |f| f.base) == line::number_behind(text, end, 38, 16)
        && fee.map_or(0, |f| f.words) == line::number_behind(text, end, 55, 16)
        && fee.map_or(0, |f| f.labels) == line::number_behind(text, end, 72, 16)
}
