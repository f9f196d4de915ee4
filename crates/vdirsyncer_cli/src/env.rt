//! The environment.

use values::Text;

/// What the program takes from its environment.
#[derive(Debug, Drop)]
pub struct Env {
    /// The home folder of the user.
    pub home: Option<Text>,
    /// The folder of configurations, by the XDG base directory specification.
    pub xdg_config: Option<Text>,
    /// The configuration file, by the variable of this program's own.
    pub vdirsyncer_config: Option<Text>,
}
