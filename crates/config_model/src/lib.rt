//! What a configuration says: its pairs and storages.
#![tactic(auto)]

mod by_name;
mod config;
mod fields;
mod keys;
mod meanings;
mod pair_rules;
mod pairs;
mod reading;
mod rules;
mod storage_kind;
mod storages;
mod wanted;

pub use config::{Config, PairConf, Param, ParamValue, StorageConf};
pub use config_ini::ConfigError;
pub use meanings::has_control;
pub use reading::read_config;
pub use rules::{ConflictRule, MetaKey, Partial};
pub use storage_kind::StorageKind;
pub use wanted::Wanted;
