//! Why Registry and namelist have no config.

ghost use Rattle.std.specs.Prelude.{◌≡◌};
ghost use Rattle.std.specs.Option.{option_copied};
ghost use Rattle.wf_config.specs.ConfigErrors.{fault_of};
ghost use Rattle.wf_config.specs.declared.error.ConfigError.TheVariants as config;

use std::alloc::{AllocError, AllocFailed};
use std::fmt;
use thiserror::Error;
use wf_model::ConfigFault;

/// Why Registry and namelist have no config: the first refusal, or want of memory.
#[derive(Drop, Error)]
pub enum ConfigError {
    #[error("out of memory")]
    Memory,
    /// What doesn't go together, and the name that it is about.
    #[error("Registry and namelist do not go together")]
    Fault(ConfigFault),
}

impl ConfigError {
    /// The refusal; none where memory ran out.
    pub fn fault(&self) -> Option<&ConfigFault>
        ensures { option_copied result ≡ fault_of self.now }
    {
        match self {
            ConfigError::Memory => None,
            ConfigError::Fault(fault) => Some(fault),
        }
    }
}

impl fmt::Debug for ConfigError {
    fn fmt<W: fmt::Write>(&self, f: &mut fmt::Formatter<W>) -> fmt::Result {
        let kind = match self {
            ConfigError::Memory => "Memory",
            ConfigError::Fault(ConfigFault::WrongType { name: _ }) => "WrongType",
            ConfigError::Fault(ConfigFault::UnknownItem { name: _ }) => "UnknownItem",
            ConfigError::Fault(ConfigFault::TooMany { name: _ }) => "TooMany",
            ConfigError::Fault(ConfigFault::OutOfRange { name: _, value: _ }) => "OutOfRange",
            ConfigError::Fault(ConfigFault::FloatState { field: _ }) => "FloatState",
        };
        write!(f, "{kind}")
    }
}

impl From<AllocError> for ConfigError {
    ghost from_gives = { λ _ e. e ≡ config.Memory };

    fn from(_e: AllocError) -> ConfigError {
        ConfigError::Memory
    }
}

impl<T: Drop> From<AllocFailed<T>> for ConfigError {
    ghost from_gives = { λ _ e. e ≡ config.Memory };

    fn from(_e: AllocFailed<T>) -> ConfigError {
        ConfigError::Memory
    }
}

impl From<ConfigFault> for ConfigError {
    ghost from_gives = { λ fault e. e ≡ config.Fault fault };

    fn from(fault: ConfigFault) -> ConfigError {
        ConfigError::Fault(fault)
    }
}
