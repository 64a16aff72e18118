// Laws of the definitions.
ghost use Rattle.meta_variables.specs.EnvironmentRules.{NamesDiffer, NamesArePlain, NoNameIsHostile};
ghost use Rattle.meta_variables.specs.EnvironmentValues.{ValuesAreTexts};
ghost use Rattle.meta_variables.specs.GatewayRules.{GatewayNamesArePlain, GatewayNoNameIsHostile, MappingDecides, PassesInOrder, LeavesOthersOut, GatewayValuesAreTexts};

/// What every environment keeps, whatever a client sends: no two names are the same, a name is of letters, digits and `_`, and no field
/// gets a variable that the host sets itself or that a script could mistake (RFC 3875 4.1.18 and 9.2). Where nothing that it
/// is made of has a NUL, each value is UTF-8 without one.
pub fn environments_are_safe()
    ensures differ { NamesDiffer }
    ensures plain { NamesArePlain }
    ensures hostile { NoNameIsHostile }
    ensures texts { ValuesAreTexts }
{}

/// What every environment keeps that is made for a gateway, whatever it sends: a name is of letters, digits and `_`, none is SCGI,
/// HTTP_PROXY, HTTP_AUTHORIZATION or HTTP_PROXY_AUTHORIZATION, and GATEWAY_INTERFACE, SCRIPT_NAME, PATH_INFO and PATH_TRANSLATED are the
/// mapping's alone. A received variable is passed on in its place, or left out as if it had not been received. Where nothing has a NUL,
/// each value is UTF-8 without one.
pub fn gateway_environments_are_safe()
    ensures plain { GatewayNamesArePlain }
    ensures hostile { GatewayNoNameIsHostile }
    ensures mapping { MappingDecides }
    ensures order { PassesInOrder }
    ensures others { LeavesOthersOut }
    ensures texts { GatewayValuesAreTexts }
{}
