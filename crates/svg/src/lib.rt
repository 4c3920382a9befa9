// Templates of a picture in SVG, filled with numbers and put into a buffer as far as it has room. Lengths are hundredths of a unit until
// they are written.
#![tactic(auto)]

use std::fmt;
use std::fmt::Write;

// Some programs draw text badly whose size is below 1 or in the ten thousands. A picture with text below this size, in hundredths of a
// unit, is written 100 times as large,
pub const SMALL: u32 = 2000;

// and one with text of this size or more 100 times as small.
const LARGE: u32 = 200000;

// No length of a picture is larger, in hundredths.
const LONGEST: u64 = 1000000000000000;

// Units in a millimetre, and the decimals of so many.
const MILLIMETRE: u64 = 8;

const EIGHTHS: [&str; 8] = ["", ".125", ".25", ".375", ".5", ".625", ".75", ".875"];

// Before the form of a number,
const MARK: u8 = b'%';

// and the form of a number that says whether the rest is put.
const IF: u8 = b'?';

// A length of the picture as it is written, by the size of its text.
fn scaled(n: u64, font: u32) -> u64 {
    if font < SMALL {
        100 * n.min(LONGEST)
    } else if font < LARGE {
        n
    } else {
        n / 100
    }
}

// A buffer, the length of what is put into it, and the size of the picture's text, in hundredths of a unit.
#[derive(Drop)]
pub struct Page<'a> {
    bytes: &'a mut [u8],
    len: usize,
    font: u32,
}

impl<'a> Page<'a> {
    // A page on which nothing is put yet.
    pub fn new(bytes: &'a mut [u8], font: u32) -> Page<'a> {
        Page {
            bytes,
            len: 0,
            font,
        }
    }

    // The length of what is put on it: that of the buffer, where there is no room any more.
    pub fn len(&self) -> usize {
        self.len
    }

    // A byte, if there is room.
    fn put(&mut self, byte: u8) {
        if self.len < self.bytes.len() {
            self.bytes[self.len] = byte;
            self.len += 1;
        }
    }

    // Hundredths, without decimals if they are 0.
    fn put_hundredths(&mut self, n: u64) -> fmt::Result {
        if n % 100 == 0 {
            write!(self, "{}", n / 100)
        } else {
            write!(self, "{}.{:02}", n / 100, n % 100)
        }
    }

    // A number in its form.
    fn put_number(&mut self, form: u8, n: u64) -> fmt::Result {
        match form {
            IF => Ok(()),
            b'n' => write!(self, "{n}"),
            b'm' => write!(
                self,
                "{}{}",
                n / MILLIMETRE,
                EIGHTHS[(n % MILLIMETRE) as usize]
            ),
            b'h' => self.put_hundredths(n),
            _ => self.put_hundredths(scaled(n, self.font)),
        }
    }

    // The template, with a number for each mark: %n is a whole number, %m millimetres, %l a length of the picture, %h hundredths; %? with
    // the number 0 ends the template.
    pub fn fill(&mut self, template: &[u8], numbers: &[u64]) {
        let mut numbers = numbers.iter();
        let mut is_form = false;
        for &byte in template {
            if is_form {
                let n = numbers.next().copied().unwrap_or(0);
                if byte == IF && n == 0 {
                    return;
                }
                // never an error
                let _ = self.put_number(byte, n);
            } else if byte != MARK {
                self.put(byte);
            }
            is_form = !is_form && byte == MARK;
        }
    }
}

// What has no room is dropped, and that is no error.
impl Write for Page<'_> {
    fn write_str(&mut self, s: &str) -> fmt::Result {
        for &byte in s.as_bytes() {
            self.put(byte);
        }
        Ok(())
    }
}

// Fills a template from place `at` of a buffer, for a picture whose text has this size. Answers the place after it, or the buffer's end,
// where there is no room any more.
pub fn fill(out: &mut [u8], at: usize, template: &[u8], numbers: &[u64], font: u32) -> usize {
    let mut page = Page {
        bytes: out,
        len: at,
        font,
    };
    page.fill(template, numbers);
    page.len
}
