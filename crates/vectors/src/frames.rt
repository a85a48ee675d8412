// Tagging and stripping.
use crate::Call;
use crate::print::{self, Fields};
use crate::token::{Bytes, FRAME, Output, Token, Tokens};
use frame::Header;
use std::io;

#[derive(Clone, Copy)]
pub(crate) struct Tag {
    frame: Bytes<FRAME>,
    header: Header,
    output: Output,
}

#[derive(Clone, Copy)]
pub(crate) struct Strip {
    frame: Bytes<FRAME>,
    output: Output,
}

impl Token for Header {
    fn read(line: &mut Tokens<'_>) -> Option<Header> {
        Some(Header {
            l: line.read()?,
            f: line.read()?,
            hc: line.read()?,
            nonce: line.read()?,
        })
    }
}

impl Token for Tag {
    fn read(line: &mut Tokens<'_>) -> Option<Tag> {
        Some(Tag {
            frame: line.read()?,
            header: line.read()?,
            output: line.read()?,
        })
    }
}

impl Token for Strip {
    fn read(line: &mut Tokens<'_>) -> Option<Strip> {
        Some(Strip {
            frame: line.read()?,
            output: line.read()?,
        })
    }
}

impl Call for Tag {
    fn answer<P: Print>(self, rt: &P) -> io::Result<()> {
        let mut out = self.output.bytes();
        match frame::tag(self.frame.all(), self.header, out.all_mut()) {
            Ok(long) => println!(rt; "tagged {long}")?,
            Err(why) => print::refused(rt, why)?,
        }
        print::output(rt, self.output, out.all())
    }
}

impl Call for Strip {
    fn answer<P: Print>(self, rt: &P) -> io::Result<()> {
        let mut out = self.output.bytes();
        match frame::strip(self.frame.all(), out.all_mut()) {
            Ok(host) => println!(rt; "stripped {} {}", host.len, Fields(host.header))?,
            Err(why) => print::refused(rt, why)?,
        }
        print::output(rt, self.output, out.all())
    }
}
