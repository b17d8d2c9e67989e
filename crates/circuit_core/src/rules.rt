// Which rule of a circuit a message meets.
ghost use Rattle.std.specs.Prelude.{◌≡◌, ◌≢◌, ◌⊎◌, ◌+◌, ◌≤◌};
ghost use Rattle.circuit_meaning.specs.Rules.{is_bound, event_rule, ack_rule, connect_rule};

use circuit_meaning::{CircuitStatus, Rule};
use hub_messages::Refusal;

/// How many outcomes may be kept.
const OUTCOMES_LIMIT: u64 = 64;

pub fn holds(bound: Option<u64>, connection: u64) -> bool
    ensures { result ≡ is_bound bound connection }
{
    match bound {
        Some(bound) => bound == connection,
        None => false,
    }
}

pub fn for_event(status: &CircuitStatus, connection: u64, number: u64, got: u64) -> Rule
    requires { status.now.ended ≡ None → status.now.forgotten ≤ status.now.last }
    ensures rule { result ≡ event_rule status.now connection number got }
    ensures runs { (result ≡ Rule.Again) ⊎ (result ≡ Rule.Takes) → status.now.ended ≡ None }
    ensures got { (result ≡ Rule.Again) ⊎ (result ≡ Rule.Takes) → got ≤ status.now.last }
    ensures again { result ≡ Rule.Again → number ≤ status.now.last }
    ensures takes { result ≡ Rule.Takes → number ≡ status.now.last + 1 }
{
    if !holds(status.bound, connection) {
        return Rule::Silent;
    }
    if let Some(fault) = status.ended {
        return Rule::Over(fault);
    }
    if status.last < got {
        return Rule::Refuses(Refusal::GotAhead { last: status.last });
    }
    if number <= status.last {
        return Rule::Again;
    }
    if status.last + 1 < number {
        return Rule::Refuses(Refusal::Early {
            next: status.last + 1,
        });
    }
    let forgotten = status.forgotten.max(got);
    if status.last - forgotten >= OUTCOMES_LIMIT {
        return Rule::Refuses(Refusal::OutcomesFull {
            oldest: forgotten + 1,
        });
    }
    Rule::Takes
}

pub fn for_ack(status: &CircuitStatus, connection: u64, batch: u64, got: u64) -> Rule
    ensures rule { result ≡ ack_rule status.now connection batch got }
    ensures runs { result ≡ Rule.Takes → status.now.ended ≡ None }
    ensures got { result ≡ Rule.Takes → got ≤ status.now.last }
    ensures batch { result ≡ Rule.Takes → batch ≤ status.now.sent }
    ensures not_again { result ≢ Rule.Again }
{
    if !holds(status.bound, connection) {
        return Rule::Silent;
    }
    if let Some(fault) = status.ended {
        return Rule::Over(fault);
    }
    if status.last < got {
        return Rule::Refuses(Refusal::GotAhead { last: status.last });
    }
    if status.sent < batch {
        return Rule::Refuses(Refusal::AckAhead { sent: status.sent });
    }
    Rule::Takes
}

pub fn for_connect(status: &CircuitStatus, applied: u64, got: u64) -> Rule
    ensures rule { result ≡ connect_rule status.now applied got }
    ensures runs { result ≡ Rule.Takes → status.now.ended ≡ None }
    ensures got { result ≡ Rule.Takes → got ≤ status.now.last }
    ensures kept { result ≡ Rule.Takes → status.now.acked ≤ applied }
    ensures made { result ≡ Rule.Takes → applied ≤ status.now.sent }
    ensures not_again { result ≢ Rule.Again }
{
    if let Some(fault) = status.ended {
        return Rule::Over(fault);
    }
    if status.sent < applied {
        return Rule::Refuses(Refusal::AppliedAhead { sent: status.sent });
    }
    if applied < status.acked {
        return Rule::Refuses(Refusal::BatchesGone {
            acked: status.acked,
        });
    }
    if status.last < got {
        return Rule::Refuses(Refusal::GotAhead { last: status.last });
    }
    Rule::Takes
}
