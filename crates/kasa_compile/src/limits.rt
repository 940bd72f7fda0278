// Agents beyond the limits.
ghost use Rattle.std.specs.Prelude.{◌≡◌};
ghost use Rattle.kasa_compile.specs.Labels.{standing, behind};
ghost use Rattle.kasa_compile.specs.Causes.{lesser, thirteenth};

use crate::pairs::{items_on, stands_on};
use crate::resolved::Side;
use kasa_syntax::{AgentText, Form, Item};

/// The lesser one of two offsets, of which either may be missing.
pub fn lesser(one: Option<u32>, other: Option<u32>) -> Option<u32>
    ensures { result ≡ lesser one other }
{
    let Some(first) = one else {
        return other;
    };
    match other {
        Some(second) if second < first => Some(second),
        _ => Some(first),
    }
}

/// The offset of the 201st agent of a declared complex.
pub fn past_limit_of_init(agents: &[AgentText]) -> Option<u32>
    ensures { result ≡ behind 200 agents.now }
{
    match agents.get(200) {
        None => None,
        Some(agent) => Some(agent.name.start),
    }
}

/// The offset of the first agent of a rule that is the 13th of its side.
pub fn past_limit_of_rule(form: &Form) -> Option<u32>
    ensures { result ≡ thirteenth form.now }
{
    let left = agent_behind(12, Side::Left, items_on(Side::Left, form));
    let right = agent_behind(12, Side::Right, items_on(Side::Right, form));
    lesser(left, right)
}

// The offset of the agent behind the first so many that stand on a side.
fn agent_behind(most: usize, side: Side, items: &[Item]) -> Option<u32>
    ensures { result ≡ behind most (standing side items.now) }
{
    let mut more = most;
    for item in items {
        if let Item::Agent(agent) = item {
            if stands_on(side, agent.mark) {
                if more == 0 {
                    return Some(agent.name.start);
                }
                more -= 1;
            }
        }
    }
    None
}
