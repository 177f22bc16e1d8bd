//! The daemon of a run on one thread: it serves lines by the steps of its core.
ghost use Rattle.cd_dialogue.specs.declared.server.Next.TheVariants as nexts;
ghost use Rattle.cd_reading.specs.Gives.{Gives, Refuses};
ghost use Rattle.cd_serve.specs.Working.Progress.{Accepts, Asked, CallsAll, Drains, Finishes, Flushes, HandlesOne};
ghost use Rattle.cd_serve.specs.Working.Progress.{HasCall, HasWork, IsNotBlank, IsRefused, IsServed, Obeys, Puts, Rolled, Serves};
ghost use Rattle.cd_serve.specs.Working.Progress.{WorksOn, seen_of, with_moment, with_word};
ghost use Rattle.cd_serve.specs.Working.Standing.{Keeps};
ghost use Rattle.cd_sock.specs.Faults.{line_fault};
ghost use Rattle.cd_sock.specs.Lines.{content};
ghost use Rattle.cd_sock.specs.Meaning.{IsSameButTimes, ListsFit, meaning};
ghost use Rattle.cd_types.specs.Types.{fits};
ghost use Rattle.cd_value.specs.Identifier.{name_of};
ghost use Rattle.std.specs.List.{list_all};
ghost use Rattle.std.specs.Prelude.{IfErr, IfOk, IfSome, IsOkAnd, IsTrue, None, OnErr, OnOk, Some};
ghost use Rattle.std.specs.Prelude.{[], length, ℕ, ◌++◌, ◌+◌, ◌<◌, ◌∷◌, ◌≡◌};

use crate::outside::Outside;
use cd_core::{AcceptFault, FlushFault, HandleFault, QueryFault};
use cd_dialogue::{Next, Response, Server};
use cd_history::{Given, Givens};
use cd_sock::{Command, Line, LineFault, Reply, is_blank_line, print_reply, print_rows};
use cd_value::{FlushRequest, Identifier, Lists, Memory, Text};
use std::alloc::Global;

/// The daemon: what it asks of the outside, what that gave so far, and room for the words of the dice that a line
/// takes, which is used again for each line.
#[derive(Drop)]
pub struct Daemon<O> {
    pub outside: O,
    pub given: Givens,
    pub words: Vec<u64>,
}

impl<O: Outside> Daemon<O> {
    /// Asks the clock for a moment, in units of 2^-30 s.
    fn moment(&mut self) -> Result<u64, Memory>
        ensures ok { IfOk result (λ now.
            (IfSome (O.outside_pairs self.old.outside).clock (λ pair. now ≡ pair.0))
            × (seen_of O.outside_pairs O.outside_core self.new
            ≡ with_moment now (seen_of O.outside_pairs O.outside_core self.old))) }
        ensures core { O.outside_core self.new.outside ≡ O.outside_core self.old.outside }
    {
        let now = self.outside.moment();
        self.given.push(Given::Now(now))?;
        Ok(now)
    }

    /// Rolls the dice for a word.
    fn word(&mut self) -> Result<(), Memory>
        ensures ok { OnOk result ((word : ℕ)
            × (IfSome (O.outside_pairs self.old.outside).dice (λ pair. word ≡ pair.0))
            × (self.new.words.items ≡ self.old.words.items ++ word ∷ [])
            × (seen_of O.outside_pairs O.outside_core self.new
            ≡ with_word word (seen_of O.outside_pairs O.outside_core self.old))) }
        ensures core { O.outside_core self.new.outside ≡ O.outside_core self.old.outside }
    {
        let word = self.outside.word();
        self.given.push(Given::Word(word))?;
        self.words.push(word)?;
        Ok(())
    }

    /// Rolls the dice for so many words.
    fn roll(&mut self, count: usize) -> Result<(), Memory>
        ensures ok { OnOk result (Rolled self.new.words.items count
            (seen_of O.outside_pairs O.outside_core self.old)
            (seen_of O.outside_pairs O.outside_core self.new)) }
        ensures core { O.outside_core self.new.outside ≡ O.outside_core self.old.outside }
    {
        self.words.clear();
        for _ in 0..count {
            self.word()?;
        }
        Ok(())
    }

    /// Makes all calls that wait, one by one.
    fn make_calls(&mut self) -> Result<(), Memory>
        ensures ok { OnOk result (CallsAll
            (seen_of O.outside_pairs O.outside_core self.old)
            (seen_of O.outside_pairs O.outside_core self.new)) }
        ensures keeps { Keeps (O.outside_core self.old.outside) (O.outside_core self.new.outside) }
        ensures queue { (O.outside_core self.new.outside).queue
            ≡ (O.outside_core self.old.outside).queue }
        ensures lacked { OnErr result (HasCall (O.outside_core self.old.outside)) }
    {
        while let Some(answer) = self.outside.call() {
            self.given.push(Given::Answered(answer))?;
        }
        Ok(())
    }

    /// Makes all calls that wait, and forgets their answers: for a daemon that lacked memory. That takes none.
    pub fn drain(&mut self)
        ensures keeps { Keeps (O.outside_core self.old.outside) (O.outside_core self.new.outside) }
        ensures none { Drains (O.outside_core self.old.outside) (O.outside_core self.new.outside) }
    {
        while let Some(_) = self.outside.call() {}
    }

    /// Handles the first list that waits, at a moment, and makes all calls that wait then.
    fn handle(&mut self, alloc: Global) -> Result<(), Memory>
        requires some { 0 < length (O.outside_core self.old.outside).queue }
        ensures ok { OnOk result (HandlesOne
            (seen_of O.outside_pairs O.outside_core self.old)
            (seen_of O.outside_pairs O.outside_core self.new)) }
        ensures keeps { Keeps (O.outside_core self.old.outside) (O.outside_core self.new.outside) }
        ensures queue { OnOk result (length (O.outside_core self.new.outside).queue + 1
            ≡ length (O.outside_core self.old.outside).queue) }
    {
        let now = self.moment()?;
        match self.outside.handle(alloc, now) {
            Ok(_) => self.make_calls(),
            Err(HandleFault::Memory) => Err(Memory),
            Err(HandleFault::Empty) => unreachable!(),
        }
    }

    /// Works until it is idle: makes all calls that wait, and handles the lists that wait, in order, each before the
    /// calls that it leaves.
    pub fn work(&mut self, alloc: Global) -> Result<(), Memory>
        ensures ok { OnOk result (WorksOn
            (seen_of O.outside_pairs O.outside_core self.old)
            (seen_of O.outside_pairs O.outside_core self.new)) }
        ensures keeps { Keeps (O.outside_core self.old.outside) (O.outside_core self.new.outside) }
        ensures lacked { OnErr result (HasWork (O.outside_core self.old.outside)) }
    {
        self.make_calls()?;
        while self.outside.queued() != 0 {
            self.handle(alloc)?;
        }
        Ok(())
    }

    /// Offers lists, each with its word that was rolled, and gives the reply.
    fn accept(&mut self, alloc: Global, lists: Lists, now: u64) -> Result<Reply, Memory>
        requires words { length self.old.words.items ≡ length lists }
        requires fit { IsTrue (list_all
            (fits (O.outside_core self.old.outside).opening.types) lists) }
        ensures ok { IfOk result (λ reply. Accepts lists self.old.words.items now reply
            (seen_of O.outside_pairs O.outside_core self.old)
            (seen_of O.outside_pairs O.outside_core self.new)) }
        ensures keeps { Keeps (O.outside_core self.old.outside) (O.outside_core self.new.outside) }
    {
        match self
            .outside
            .accept(alloc, lists, self.words.as_slice(), now)
        {
            Ok(_) => Ok(Reply::Success),
            Err(refused) => match refused.why {
                AcceptFault::Stopping => Ok(Reply::Stopping),
                AcceptFault::Memory => Err(Memory),
            },
        }
    }

    /// PUTVAL: a word is rolled for each list, they are offered, and work goes on.
    fn put(&mut self, alloc: Global, lists: Lists, now: u64) -> Result<Text, Memory>
        requires fit { IsTrue (list_all
            (fits (O.outside_core self.old.outside).opening.types) lists) }
        ensures ok { IfOk result (λ text. Puts lists now text
            (seen_of O.outside_pairs O.outside_core self.old)
            (seen_of O.outside_pairs O.outside_core self.new)) }
        ensures keeps { Keeps (O.outside_core self.old.outside) (O.outside_core self.new.outside) }
    {
        self.roll(lists.len())?;
        let reply = self.accept(alloc, lists, now)?;
        self.work(alloc)?;
        print_reply(alloc, &reply)
    }

    /// What GETVAL is replied: the rates that are cached under a name.
    fn found(&self, alloc: Global, id: &Identifier) -> Result<Text, Memory>
        ensures { IfOk result (λ text.
            Asked (Some (name_of id.now)) text (O.outside_core self.now.outside)) }
    {
        let name = id.name(alloc)?;
        match self.outside.get(alloc, &name) {
            Ok(got) => print_reply(alloc, &Reply::Got(got.names, got.rates)),
            Err(QueryFault::NoSuchValue) => print_reply(alloc, &Reply::NoSuchValue),
            Err(QueryFault::Memory) => Err(Memory),
        }
    }

    /// What LISTVAL is replied: the time and the name of each cached list.
    fn listed(&self, alloc: Global) -> Result<Text, Memory>
        ensures { IfOk result (λ text. Asked None text (O.outside_core self.now.outside)) }
    {
        let rows = self.outside.listed(alloc)?;
        print_rows(alloc, rows.as_slice())
    }

    /// Works until it is idle, and replies with the counts of a flush. None of its calls waits then, so that it has
    /// them; a flush without counts would be answered as want of memory, which no clause refuses.
    fn finish(&mut self, alloc: Global, number: u64) -> Result<Text, Memory>
        ensures ok { IfOk result (λ text. Finishes number text
            (seen_of O.outside_pairs O.outside_core self.old)
            (seen_of O.outside_pairs O.outside_core self.new)) }
        ensures keeps { Keeps (O.outside_core self.old.outside) (O.outside_core self.new.outside) }
    {
        self.work(alloc)?;
        let Ok((successful, errors)) = self.outside.flush_end(number) else {
            return Err(Memory);
        };
        print_reply(alloc, &Reply::Flushed(successful, errors))
    }

    /// FLUSH: a flush is begun, work goes on, and the flush ends.
    fn flush(&mut self, alloc: Global, request: &FlushRequest) -> Result<Text, Memory>
        ensures ok { IfOk result (λ text. Flushes request.now text
            (seen_of O.outside_pairs O.outside_core self.old)
            (seen_of O.outside_pairs O.outside_core self.new)) }
        ensures keeps { Keeps (O.outside_core self.old.outside) (O.outside_core self.new.outside) }
    {
        match self.outside.flush_begin(alloc, request) {
            Ok(number) => self.finish(alloc, number),
            Err(FlushFault::Stopping) => print_reply(alloc, &Reply::Stopping),
            Err(FlushFault::Memory) => Err(Memory),
        }
    }

    /// Carries out a command that was read at a moment, and prints its reply.
    fn obey(&mut self, alloc: Global, command: Command, now: u64) -> Result<Text, Memory>
        requires fit { ListsFit (O.outside_core self.old.outside).opening.types command }
        ensures ok { IfOk result (λ text. Obeys command now text
            (seen_of O.outside_pairs O.outside_core self.old)
            (seen_of O.outside_pairs O.outside_core self.new)) }
        ensures keeps { Keeps (O.outside_core self.old.outside) (O.outside_core self.new.outside) }
    {
        match command {
            Command::Blank => Ok(Text::new(alloc)),
            Command::PutVal(lists) => self.put(alloc, lists, now),
            Command::GetVal(id) => {
                let text = self.found(alloc, &id)?;
                self.work(alloc)?;
                Ok(text)
            }
            Command::ListVal => {
                let text = self.listed(alloc)?;
                self.work(alloc)?;
                Ok(text)
            }
            Command::Flush(request) => self.flush(alloc, &request),
        }
    }

    /// Replies with a fault, after work went on; want of memory is none.
    fn refuse(&mut self, alloc: Global, fault: LineFault) -> Result<Text, Memory>
        ensures ok { IfOk result (λ text. IsRefused fault text
            (seen_of O.outside_pairs O.outside_core self.old)
            (seen_of O.outside_pairs O.outside_core self.new)) }
        ensures keeps { Keeps (O.outside_core self.old.outside) (O.outside_core self.new.outside) }
    {
        let reply = refusal(fault)?;
        self.work(alloc)?;
        print_reply(alloc, &reply)
    }

    /// Reads a line at a moment, by the types and the interval that are in force.
    fn read(&self, alloc: Global, line: &[u8], now: u64) -> Result<Command, LineFault>
        ensures meaning { Gives (λ command. command) line_fault result (meaning
            (O.outside_core self.now.outside).opening.types now
            (O.outside_core self.now.outside).opening.globals.interval line.now) }
        ensures same_fault { IfErr result (λ fault. (later other : ℕ) →
            Refuses (line_fault fault) (meaning
            (O.outside_core self.now.outside).opening.types later other line.now)) }
        ensures same_command { IfOk result (λ command. (later other : ℕ) →
            IsOkAnd (meaning (O.outside_core self.now.outside).opening.types later other line.now)
            (IsSameButTimes command)) }
        ensures fits { IfOk result (λ command.
            ListsFit (O.outside_core self.now.outside).opening.types command) }
    {
        let interval = self.outside.interval();
        let types = self.outside.types();
        Command::read(alloc, line, types, now, interval)
    }

    /// Serves a line that isn't blank.
    fn serve_words(&mut self, alloc: Global, line: &[u8]) -> Result<Text, Memory>
        requires { IsNotBlank line.now }
        ensures ok { IfOk result (λ reply. Serves (Some line.now) reply
            (seen_of O.outside_pairs O.outside_core self.old)
            (seen_of O.outside_pairs O.outside_core self.new)) }
        ensures keeps { Keeps (O.outside_core self.old.outside) (O.outside_core self.new.outside) }
    {
        let now = self.moment()?;
        match self.read(alloc, line, now) {
            Ok(command) => self.obey(alloc, command, now),
            Err(fault) => self.refuse(alloc, fault),
        }
    }

    /// Serves a line that is too long.
    fn serve_too_long(&mut self, alloc: Global) -> Result<Text, Memory>
        ensures ok { IfOk result (λ reply. Serves None reply
            (seen_of O.outside_pairs O.outside_core self.old)
            (seen_of O.outside_pairs O.outside_core self.new)) }
        ensures keeps { Keeps (O.outside_core self.old.outside) (O.outside_core self.new.outside) }
    {
        self.moment()?;
        self.refuse(alloc, LineFault::LineTooLong)
    }

    /// Serves a line.
    fn answer(&mut self, alloc: Global, line: &Line) -> Result<Text, Memory>
        ensures ok { IfOk result (λ reply. IsServed (content line.now) reply
            (seen_of O.outside_pairs O.outside_core self.old)
            (seen_of O.outside_pairs O.outside_core self.new)) }
        ensures keeps { Keeps (O.outside_core self.old.outside) (O.outside_core self.new.outside) }
    {
        match line {
            Line::TooLong => self.serve_too_long(alloc),
            Line::Whole(bytes) => {
                if is_blank_line(bytes) {
                    Ok(Text::new(alloc))
                } else {
                    self.serve_words(alloc, bytes)
                }
            }
        }
    }
}

/// The daemon never closes its dialogue.
impl<O: Outside> Server for Daemon<O> {
    ghost serves_line = { λ next line reply old new. (next ≡ nexts.GoOn) × IsServed line reply
        (seen_of O.outside_pairs O.outside_core old)
        (seen_of O.outside_pairs O.outside_core new) };

    ghost gives_up = { λ line old new. Keeps
        (O.outside_core old.outside) (O.outside_core new.outside) };

    fn serve(&mut self, alloc: Global, line: &Line) -> Result<Response, Memory> {
        let reply = self.answer(alloc, line)?;
        Ok(Response {
            reply,
            next: Next::GoOn,
        })
    }
}

/// The reply to a line with a fault; want of memory is none.
fn refusal(fault: LineFault) -> Result<Reply, Memory>
    ensures { IfOk result (λ reply. (reply ≡ Reply.Fault fault) × (line_fault fault ≡ Some fault)) }
{
    match fault {
        LineFault::Memory => Err(Memory),
        _ => Ok(Reply::Fault(fault)),
    }
}
