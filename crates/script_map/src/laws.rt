// Laws of the definitions.
ghost use Rattle.script_map.specs.AuthorityRules.{AuthoritiesHaveOneHost};
ghost use Rattle.script_map.specs.HostRules.{FirstHostServesNameless, NamesFindTheirHost, AnyTakesOtherNames, OtherNamesHaveNoHost};
ghost use Rattle.script_map.specs.MappingRules.{FitsWholeSegments, MapsToLongest, FindsWhatFits, RefusesOtherHosts, RefusesUnreadable, RefusesWhatFitsNone, DecodesSegments, MapsDecodedToLongest, FindsWhatFitsDecoded, RefusesDecodedOtherHosts, RefusesDecodedUnreadable, RefusesDecodedWhatFitsNone};
ghost use Rattle.script_map.specs.TargetRules.{ReadsTargets, RefusesUnserved, RefusesHosts, RefusesTargets};
ghost use Rattle.script_map.specs.PathRules.{LeavesNoDotSegment, KeepsOtherPaths, DropsDots, DropsPairs, DropsAtRoot, EndsWithSlash};

/// What `remove_dot_segments` makes of a path: nothing is left of its dot segments, all else stays, and
/// these rules of RFC 3986 5.2.4 hold: `/./` is `/`, a segment goes with the `..` after it, a `..` at the
/// root goes alone, and a dot segment at the end leaves a slash.
pub fn dot_segments_are_removed()
    ensures nothing_left { LeavesNoDotSegment }
    ensures others_stay { KeepsOtherPaths }
    ensures dots { DropsDots }
    ensures pairs { DropsPairs }
    ensures root { DropsAtRoot }
    ensures end { EndsWithSlash }
{}

/// An authority is a host and perhaps a port, in one way alone (RFC 3986 3.2).
pub fn authorities_have_one_host()
    ensures { AuthoritiesHaveOneHost }
{}

/// What `map` finds at a path: the longest of the scripts of the target's host that fit whole segments of
/// it, and the rest as PATH_INFO, so that both together are the decoded path.
pub fn paths_are_mapped()
    ensures fitting { FitsWholeSegments }
    ensures longest { MapsToLongest }
    ensures found { FindsWhatFits }
    ensures segments { DecodesSegments }
{}

/// When `map` refuses a target, and for which cause.
pub fn paths_are_refused()
    ensures hosts { RefusesOtherHosts }
    ensures unreadable { RefusesUnreadable }
    ensures unfit { RefusesWhatFitsNone }
{}

/// What `map_decoded` finds at a path, and when it refuses one.
pub fn decoded_paths_are_mapped()
    ensures longest { MapsDecodedToLongest }
    ensures found { FindsWhatFitsDecoded }
    ensures hosts { RefusesDecodedOtherHosts }
    ensures unreadable { RefusesDecodedUnreadable }
    ensures unfit { RefusesDecodedWhatFitsNone }
{}

/// Which host a target has, among hosts that can be told apart (RFC 9110 7.2).
pub fn hosts_are_found()
    ensures first { FirstHostServesNameless }
    ensures names { NamesFindTheirHost }
    ensures any { AnyTakesOtherNames }
    ensures others { OtherNamesHaveNoHost }
{}

/// What `split_target` gives of a head: the target in origin form or in absolute form, at which host, and for
/// which cause a head has none (RFC 9112 3.2 and 3.3).
pub fn targets_are_read()
    ensures target { ReadsTargets }
    ensures unserved { RefusesUnserved }
    ensures hosts { RefusesHosts }
    ensures targets { RefusesTargets }
{}
