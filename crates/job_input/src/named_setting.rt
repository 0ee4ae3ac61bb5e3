//! A setting, and the field that its signature names.
ghost use Rattle.job_input.specs.Setting.{IsNamedBy};

use crate::setting::Setting;
use gf_tower::AnyField;

/// A setting, and the field that its signature names, by its kind.
#[derive(Clone, Copy)]
pub struct NamedSetting<'a> {
    /// The setting over this field.
    pub setting: &'a Setting,
    /// The field that its signature names.
    pub field: &'a AnyField,
    ghost by_signature: { IsNamedBy setting.now.signature field.now },
}
