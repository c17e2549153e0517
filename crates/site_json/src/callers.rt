// The lists that say for whom.
ghost use Rattle.site_json.specs.Elements as said;

use crate::element::Element;
use crate::members::{has_number, has_text, is_text, number, small, text};
use crate::words::kind_at;
use cta_site::{Directory, NoMemory, Policy, Rule, RuleKind};
use serde_json::Value;
use std::alloc::Global;

impl Element for Policy {
    ghost is_element = { said.tells_policy };

    ghost element_of = { said.policy_told };

    fn is(value: &Value) -> bool {
        is_text(value, "name")
            && has_number(value, 0, 1_000_000, "archivePriority")
            && has_number(value, 0, 31_536_000, "archiveMinAge")
            && has_number(value, 0, 1_000_000, "retrievePriority")
            && has_number(value, 0, 31_536_000, "retrieveMinAge")
    }

    fn of(alloc: Global, value: &Value) -> Result<Policy, NoMemory> {
        let name = text(alloc, value, "name")?;
        Ok(Policy {
            name,
            archive_priority: small(value, 1_000_000, "archivePriority"),
            archive_min_age: number(value, "archiveMinAge"),
            retrieve_priority: small(value, 1_000_000, "retrievePriority"),
            retrieve_min_age: number(value, "retrieveMinAge"),
        })
    }
}

impl Element for Rule {
    ghost is_element = { said.tells_rule };

    ghost element_of = { said.rule_told };

    fn is(value: &Value) -> bool {
        kind_at(value).is_some() && has_text(value, 1, 128, "name") && is_text(value, "policy")
    }

    fn of(alloc: Global, value: &Value) -> Result<Rule, NoMemory> {
        let name = text(alloc, value, "name")?;
        let policy = text(alloc, value, "policy")?;
        Ok(Rule {
            kind: kind_at(value).unwrap_or(RuleKind::Requester),
            name,
            policy,
        })
    }
}

impl Element for Directory {
    ghost is_element = { said.tells_directory };

    ghost element_of = { said.directory_told };

    fn is(value: &Value) -> bool {
        is_text(value, "path") && is_text(value, "class")
    }

    fn of(alloc: Global, value: &Value) -> Result<Directory, NoMemory> {
        let path = text(alloc, value, "path")?;
        let class = text(alloc, value, "class")?;
        Ok(Directory { path, class })
    }
}
