//! The words of a command line.

ghost use Rattle.std.specs.Prelude.{◌≡◌, ◌≤◌, ◌<◌, length, map, string_bytes, IfSome};
ghost use Rattle.fuxi_terms.specs.Limits.{most_jobs, most_machines, most_units};
ghost use Rattle.schedule_unit.specs.NumberWords.{number_of};
ghost use Rattle.fuxi_command.specs.CommandWords.{agent_of, app_of, as_command, command_of, master_of, node_at, one_word, storm_of_words, AreWithin};
ghost use Rattle.fuxi_node.specs.NodeInputs.{IsKind};

use fuxi_node::NodeKind;
use fuxi_terms::limits::{MOST_ADDRESS_BYTES, MOST_JOBS, MOST_MACHINES, MOST_UNITS};
use schedule_unit::{AppNo, MachineNo, read_number};
use storm_run::MOST_STEPS;

// What the program is told to do.
#[derive(Clone, Copy)]
pub enum Command<'a> {
    Replay,
    Storm { seed: u64, steps: u64 },
    Node { kind: NodeKind, addr: &'a [u8] },
    Lease,
    Work,
}

// A storm, where both words are numbers and the steps are not too many.
fn storm_of_words<'a>(seed: Option<u64>, steps: Option<u64>) -> Option<Command<'a>>
    ensures { as_command result ≡ storm_of_words seed steps }
{
    match (seed, steps) {
        (Some(seed), Some(steps)) => {
            if steps > MOST_STEPS {
                return None;
            }
            Some(Command::Storm { seed, steps })
        }
        _ => None,
    }
}

// A master, where the word is an epoch.
fn master_of(epoch: Option<u64>) -> Option<NodeKind>
    ensures is { result ≡ master_of epoch }
    ensures within { IfSome result IsKind }
{
    match epoch {
        Some(epoch) => {
            if epoch == 0 {
                return None;
            }
            Some(NodeKind::Master { epoch })
        }
        None => None,
    }
}

// An agent, where the words are a machine and a boot.
fn agent_of(machine: Option<u64>, boot: Option<u64>) -> Option<NodeKind>
    ensures is { result ≡ agent_of machine boot }
    ensures within { IfSome result IsKind }
{
    match (machine, boot) {
        (Some(machine), Some(boot)) => {
            if machine >= MOST_MACHINES as u64 || boot == 0 {
                return None;
            }
            Some(NodeKind::Agent {
                machine: MachineNo(machine as u32),
                boot,
            })
        }
        _ => None,
    }
}

// An application, where the words are a job, a boot and a number of units.
fn app_of(app: Option<u64>, boot: Option<u64>, units: Option<u64>) -> Option<NodeKind>
    ensures is { result ≡ app_of app boot units }
    ensures within { IfSome result IsKind }
{
    match (app, boot, units) {
        (Some(app), Some(boot), Some(units)) => {
            if (app >= u64::from(MOST_JOBS) || boot == 0)
                || (units == 0 || units > MOST_UNITS as u64)
            {
                return None;
            }
            Some(NodeKind::App {
                app: AppNo(app as u32),
                boot,
                units: units as u8,
            })
        }
        _ => None,
    }
}

// The node at an address, where that has 1 to 255 bytes.
fn node_at(addr: &str, kind: Option<NodeKind>) -> Option<Command>
    requires { IfSome kind IsKind }
    ensures is { as_command result ≡ node_at addr.now kind }
    ensures within { IfSome result AreWithin }
{
    let addr = addr.as_bytes();
    match kind {
        Some(kind) => {
            if addr.is_empty() || addr.len() > MOST_ADDRESS_BYTES {
                return None;
            }
            Some(Command::Node { kind, addr })
        }
        None => None,
    }
}

// The number that a word is, where it is one.
fn number(word: &String) -> Option<u64>
    ensures { result ≡ number_of (string_bytes word.now) }
{
    read_number(word.as_str().as_bytes())
}

// The commands of one word.
fn one_word<'a>(word: &str) -> Option<Command<'a>>
    ensures is { as_command result ≡ one_word word.now }
    ensures within { IfSome result AreWithin }
{
    match word {
        "replay" => Some(Command::Replay),
        "lease" => Some(Command::Lease),
        "work" => Some(Command::Work),
        _ => None,
    }
}

// The command that words are, where they are one.
pub(crate) fn command_of(words: &[String]) -> Option<Command>
    ensures is { as_command result ≡ command_of (map string_bytes words.now) }
    ensures within { IfSome result AreWithin }
{
    match words {
        [word] => one_word(word.as_str()),
        [word, seed, steps] => {
            if word.as_str() == "storm" {
                return storm_of_words(number(seed), number(steps));
            }
            None
        }
        [word, party, epoch, addr] => {
            if word.as_str() == "node" && party.as_str() == "master" {
                return node_at(addr.as_str(), master_of(number(epoch)));
            }
            None
        }
        [word, party, machine, boot, addr] => {
            if word.as_str() == "node" && party.as_str() == "agent" {
                return node_at(addr.as_str(), agent_of(number(machine), number(boot)));
            }
            None
        }
        [word, party, app, boot, units, addr] => {
            if word.as_str() == "node" && party.as_str() == "app" {
                return node_at(
                    addr.as_str(),
                    app_of(number(app), number(boot), number(units)),
                );
            }
            None
        }
        _ => None,
    }
}
