// Replays a list of calls on one gateway: each line of standard input is a call, each line of standard output its
// answer.
#![tactic(auto)]

use endpoint::answers::number;
use frame::read::folderpink_check_frame;
use gateway::deliver::deliver;
use gateway::load::load;
use gateway::{Call, Called, Gateway, calls};
use records::Record;
use std::io;
use text::answer::{Answer, FILL, is_clean, put_answer, put_check, put_wrong};
use text::hex::{bytes_from, settings_in};
use text::lines::{Lines, front};
use text::parse::parse;
use text::{Act, Head, Kind, Line, Parameter};

// The records and the gateway; how many of the records, and how long an output, calls are lent; and the session number
// that they are handed. Memory is fixed: as many records as a line can lend.
#[derive(Drop)]
struct Replay {
    records: [Record; 70],
    gateway: Gateway,
    lent: usize,
    room: usize,
    session: u16,
}

impl Replay {
    // Before the first line.
    fn new() -> Replay {
        Replay {
            records: [Record::BLANK; 70],
            gateway: Gateway { last: 0, count: 0 },
            lent: 64,
            room: 248,
            session: 0,
        }
    }

    fn call(&self, head: Head) -> Call {
        Call {
            gateway: self.gateway,
            clock: head.clock,
            entry: head.entry as usize,
            notready: 0,
            session: self.session,
            word: 0,
        }
    }

    // A call on the records and the output that are lent: the gateway that it leaves is kept, its answer printed.
    fn make<F>(&mut self, rt: &impl Print, call: F) -> io::Result<()>
    where
        F: FnOnce(&mut [Record], &mut [u8]) -> Called,
        requires { F.IsAlwaysCallable call }
    {
        let mut out = [FILL; 256];
        let room = self.room.min(out.len());
        let lent = self.lent.min(self.records.len());
        let called = call(&mut self.records[..lent], &mut out[..room]);
        self.gateway = called.gateway;
        print_answer(rt, called, &out[..room])
    }

    // A call that has a clock reading and an entry alone.
    fn act(&mut self, rt: &impl Print, act: Act, call: Call) -> io::Result<()> {
        self.make(rt, |records, out| match act {
            Act::Start => calls::start(records, call),
            Act::Stop => calls::stop(records, call, out),
            Act::Restart => calls::restart(records, call),
            Act::Show => calls::show(records, call, out),
            Act::NotReady => calls::set_not_ready(
                records,
                Call {
                    notready: 1,
                    ..call
                },
            ),
            Act::Ready => calls::set_not_ready(records, call),
            Act::NoResult => calls::clear_result(records, call),
            Act::NoRecord => calls::clear_record(records, call),
            Act::ReadError => calls::read_error(records, call),
        })
    }

    // A call that bytes follow, beside a clock reading and an entry.
    fn hand(&mut self, rt: &impl Print, kind: Kind, call: Call, bytes: &[u8]) -> io::Result<()> {
        self.make(rt, |records, out| match kind {
            Kind::Value => calls::send(records, call, bytes, out),
            Kind::Result => calls::set_result(records, call, bytes),
            Kind::Record => calls::set_record(records, call, bytes),
            Kind::WriteError => calls::write_error(records, call, bytes),
        })
    }

    fn load(&mut self, rt: &impl Print, line: &[u8]) -> io::Result<()> {
        let mut words = [0; 450];
        let n = settings_in(line, &mut words);
        let call = self.call(Head { clock: 0, entry: 0 });
        self.make(rt, |records, _| load(records, call, &words[..n]))
    }

    fn set(&mut self, parameter: Parameter, n: usize) {
        match parameter {
            Parameter::Room => self.room = n,
            Parameter::Records => self.lent = n,
            Parameter::Session => self.session = u16::try_from(n).unwrap_or(u16::MAX),
        }
    }

    // The line at a place of the input, without its newline.
    fn run(&mut self, rt: &impl Print, place: u64, line: &[u8]) -> io::Result<()> {
        let Some(parsed) = parse(line) else {
            return print(rt, |out| put_wrong(out, place));
        };
        let mut buffer = [0; 4096];
        match parsed {
            Line::Load => self.load(rt, line),
            Line::Timed { act, head } => self.act(rt, act, self.call(head)),
            Line::Data { kind, head, start } => {
                let bytes = bytes_at(line, start, &mut buffer);
                self.hand(rt, kind, self.call(head), bytes)
            }
            Line::Invoke { head, word, start } => {
                let bytes = bytes_at(line, start, &mut buffer);
                let call = Call {
                    word,
                    ..self.call(head)
                };
                self.make(rt, |records, _| calls::invoke(records, call, bytes))
            }
            Line::Deliver { clock, start } => {
                let bytes = bytes_at(line, start, &mut buffer);
                let call = self.call(Head { clock, entry: 0 });
                self.make(rt, |records, out| deliver(records, call, bytes, out))
            }
            Line::Check { start } => {
                let bytes = bytes_at(line, start, &mut buffer);
                // the number that C is told, since the line has a number
                let number = folderpink_check_frame(bytes);
                print(rt, |out| put_check(out, number))
            }
            Line::Set { parameter, n } => {
                self.set(parameter, n);
                Ok(())
            }
            Line::Nothing => Ok(()),
        }
    }
}

// The bytes whose digits stand from `start` to the end of a line.
fn bytes_at<'a>(line: &[u8], start: usize, buffer: &'a mut [u8]) -> &'a [u8] {
    let n = bytes_from(line, start, buffer);
    front(buffer, n)
}

// The text that `put` puts. It stands in bounds too: a public function has a contract, and none can say what is printed.
fn print<F: FnOnce(&mut [u8]) -> usize>(rt: &impl Print, put: F) -> io::Result<()>
    requires { F.IsAlwaysCallable put }
{
    let mut text = [0; 4096];
    let n = put(&mut text);
    rt.write_all(front(&text, n))
}

// The answer to a call that was lent out.
fn print_answer(rt: &impl Print, called: Called, out: &[u8]) -> io::Result<()> {
    let written = front(out, called.count);
    let answer = Answer {
        number: number(called.answer),
        entry: called.entry,
        count: called.count,
        mark: called.failsafe,
        age: called.age,
        dirty: !is_clean(out, written.len()),
    };
    print(rt, |text| put_answer(text, answer, written))
}

// A proved loop has to end, and nothing says that the input does: the turns count up to a number that no input reaches.
// The loop stands in bounds too, for print's reason.
fn main(rt: HostRuntime) -> io::Result<()> {
    let mut stdin = rt.stdin();
    let mut lines = Lines::new();
    let mut replay = Replay::new();
    for _ in 0..u64::MAX {
        lines.read_on(&mut stdin)?;
        if let Some(line) = lines.whole() {
            replay.run(&rt, lines.input.place, line)?;
        }
        if lines.input.ended {
            break;
        }
    }
    Ok(())
}
