ghost use Rattle.std.specs.Prelude.{◌≡◌, ◌<◌, ◌≤◌, ◌↔◌, IsNone, IfSome, Some};
ghost use Rattle.agg_model.specs.Entity.{entity_number, entity_name, is_domain_entity};
ghost use Rattle.agg_model.specs.declared.entity.Entity.{Entity};

// How many entities there are.
const COUNT: u8 = 7;

/// What a change is about. Domains keep a value for each key, indexes only when a key was marked.
#[derive(Clone, Copy, Debug, PartialEq, Eq)]
pub enum Entity {
    Accounts,
    Storage,
    Code,
    LogAddrs,
    LogTopics,
    TracesFrom,
    TracesTo,
}

/// The kinds of file of a group, in the order of names.
#[derive(Clone, Copy, Debug, PartialEq, Eq)]
pub enum FileKind {
    /// Values at the end of the range (domains).
    Kv,
    /// The B-tree accessor of `Kv`.
    Bt,
    /// The hash accessor of `Kv`.
    Kvi,
    /// Values before each change (domains).
    V,
    /// The hash accessor of `V`.
    Vi,
    /// The numbers of the changes of each key.
    Ef,
    /// The hash accessor of `Ef`.
    Efi,
}

/// Steps, or transaction numbers, from `from` on and below `to`.
#[derive(Clone, Copy, Debug, PartialEq, Eq)]
pub struct Range {
    pub from: u64,
    pub to: u64,
}

impl Entity {
    #[tactic(auto, unfolding(crate::specs::Entity::entity_number))]
    pub fn number(self) -> u8
        ensures { result ≡ entity_number self }
    {
        match self {
            Entity::Accounts => 0,
            Entity::Storage => 1,
            Entity::Code => 2,
            Entity::LogAddrs => 3,
            Entity::LogTopics => 4,
            Entity::TracesFrom => 5,
            Entity::TracesTo => 6,
        }
    }

    #[tactic(auto, unfolding(crate::specs::Entity::entity_number))]
    fn numbered(n: u8) -> Entity
        requires { n < 7 }
        ensures { entity_number result ≡ n }
    {
        match n {
            0 => Entity::Accounts,
            1 => Entity::Storage,
            2 => Entity::Code,
            3 => Entity::LogAddrs,
            4 => Entity::LogTopics,
            5 => Entity::TracesFrom,
            _ => Entity::TracesTo,
        }
    }

    /// The entity of this number; there are seven.
    pub fn of_number(n: u8) -> Option<Entity>
        ensures found { IfSome result (λ e. entity_number e ≡ n) }
        ensures none { IsNone result ↔ (7 ≤ n) }
    {
        if n < COUNT {
            Some(Entity::numbered(n))
        } else {
            None
        }
    }

    /// The name in requests and file names.
    #[tactic(auto, unfolding(crate::specs::Entity::entity_name))]
    pub fn name(self) -> &'static str
        ensures { result.now ≡ entity_name self }
    {
        match self {
            Entity::Accounts => "accounts",
            Entity::Storage => "storage",
            Entity::Code => "code",
            Entity::LogAddrs => "logaddrs",
            Entity::LogTopics => "logtopics",
            Entity::TracesFrom => "tracesfrom",
            Entity::TracesTo => "tracesto",
        }
    }

    /// The entity of this name, byte for byte.
    pub fn of_name(name: &[u8]) -> Option<Entity>
        ensures found { IfSome result (λ e. entity_name e ≡ name.now) }
        ensures only { (e : Entity) → entity_name e ≡ name.now → result ≡ Some e }
    {
        for number in 0..COUNT {
            let entity = Entity::numbered(number);
            if entity.name().as_bytes() == name {
                return Some(entity);
            }
        }
        None
    }

    #[tactic(auto, unfolding(crate::specs::Entity::is_domain_entity))]
    pub fn is_domain(self) -> bool
        ensures { result ≡ is_domain_entity self }
    {
        matches!(self, Entity::Accounts | Entity::Storage | Entity::Code)
    }
}
