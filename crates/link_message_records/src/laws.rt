//! Facts about the types, each a function with an empty body.

ghost use Rattle.std.specs.Prelude.{◌≡◌};
ghost use Rattle.link_message_records.specs.Indexes.{IndexesAreInOrder};
ghost use Rattle.link_message_records.specs.VfSettings.{vf_info_setting_kind};

use super::vf_setting::{VfInfoRssQueryEn, VfInfoSpoofCheck, VfInfoTrust};

/// Each setting has the kind of its attribute: `IFLA_VF_SPOOFCHK`, `IFLA_VF_RSS_QUERY_EN` and
/// `IFLA_VF_TRUST` of `linux/if_link.h`.
pub fn settings_have_kinds(
    spoof_check: &VfInfoSpoofCheck,
    rss_query_en: &VfInfoRssQueryEn,
    trust: &VfInfoTrust,
)
    ensures spoof_check { vf_info_setting_kind spoof_check.now ≡ 4 }
    ensures rss_query_en { vf_info_setting_kind rss_query_en.now ≡ 7 }
    ensures trust { vf_info_setting_kind trust.now ≡ 9 }
{}

/// The index of each setting and of each number, by the kernel's name, is its position in the
/// record.
pub fn indexes_are_in_order()
    ensures { IndexesAreInOrder }
{}
