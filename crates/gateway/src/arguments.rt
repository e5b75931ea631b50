ghost use Rattle.std.specs.Prelude.{◌≤◌, IfOk};

use crate::error::Fault;
use std::alloc::Global;
use std::env;
use std::str::FromStr;

// The most cells of memory, or places of a log, that a command line may ask for.
const MOST: usize = 1_000_000;

// The places of a log where no number is given.
const LOG: usize = 1000;

#[derive(Drop)]
pub enum Command {
    Deliver,
    Show(String),
    Exec(String, Plan),
}

// How to run an image: the cells of its memory, a grant for each run, the readings, and the places of its log.
#[derive(Drop)]
pub struct Plan {
    pub cells: usize,
    pub grants: Vec<u32>,
    pub readings: Vec<i32>,
    pub log: usize,
}

// What the options of a command line say.
#[derive(Drop)]
struct Options {
    memory: Option<usize>,
    grants: Option<Vec<u32>>,
    readings: Option<Vec<i32>>,
    log: Option<usize>,
}

fn parse_number<T: FromStr>(text: &str) -> Result<T, Fault>
where
    T::Err: Drop,
{
    text.parse::<T>().map_err(|_| Fault::Usage)
}

fn parse_size(text: &str) -> Result<usize, Fault>
    ensures { IfOk result (λ n. n ≤ 1000000) }
{
    let size = parse_number::<usize>(text)?;
    if size > MOST {
        return Err(Fault::Usage);
    }
    Ok(size)
}

// The numbers between the commas; an empty text has none.
fn parse_list<T: FromStr + Drop>(heap: Global, text: &str) -> Result<Vec<T>, Fault>
where
    T::Err: Drop,
{
    if text.is_empty() {
        return Ok(Vec::new(heap));
    }
    text.split(',')
        .map(|word| parse_number::<T>(word))
        .try_collect(heap)
}

impl Options {
    // An option has one of four names, and stands once.
    fn set(&mut self, heap: Global, name: &str, value: &str) -> Result<(), Fault> {
        match name {
            "--memory" if self.memory.is_none() => self.memory = Some(parse_size(value)?),
            "--grants" if self.grants.is_none() => self.grants = Some(parse_list::<u32>(
                heap, value,
            )?),
            "--readings" if self.readings.is_none() => self.readings = Some(parse_list::<i32>(
                heap, value,
            )?),
            "--log" if self.log.is_none() => self.log = Some(parse_size(value)?),
            _ => return Err(Fault::Usage),
        }
        Ok(())
    }

    fn parse(heap: Global, words: &[String]) -> Result<Options, Fault> {
        let mut options = Options {
            memory: None,
            grants: None,
            readings: None,
            log: None,
        };
        for pair in words.chunks(2) {
            match pair {
                [name, value] => options.set(heap, name.as_str(), value.as_str())?,
                _ => return Err(Fault::Usage),
            }
        }
        Ok(options)
    }

    fn into_plan(self, heap: Global) -> Result<Plan, Fault> {
        let Options {
            memory,
            grants,
            readings,
            log,
        } = self;
        Ok(Plan {
            cells: memory.ok_or(Fault::Usage)?,
            grants: grants.ok_or(Fault::Usage)?,
            readings: readings.unwrap_or(Vec::new(heap)),
            log: log.unwrap_or(LOG),
        })
    }
}

pub fn parse_command(rt: &HostRuntime) -> Result<Command, Fault> {
    let heap = rt.alloc();
    let mut words = env::args(rt)?;
    let _program = words.next();
    let Some(word) = words.next() else {
        return Ok(Command::Deliver);
    };
    let path = words.next().ok_or(Fault::Usage)?;
    let rest: Vec<String> = words.collect(heap)?;
    match word.as_str() {
        "show" if rest.is_empty() => Ok(Command::Show(path)),
        "exec" => {
            let options = Options::parse(heap, rest.as_slice())?;
            Ok(Command::Exec(path, options.into_plan(heap)?))
        }
        _ => Err(Fault::Usage),
    }
}
