//! What holds of the definitions themselves: the order is exact, and reanchoring keeps the path.
ghost use Rattle.locations.specs.Order.{network_cmp, body_cmp, part_cmp, junction_cmp, junctions_cmp, location_cmp, IsExactOrder};
ghost use Rattle.locations.specs.DerivedOrder.{IsDerivedOrder};
ghost use Rattle.locations.specs.PathLaw.{KeepsPath, KeepsNormal, HasOneName};

/// Each order is total, and ties only equal values.
pub fn law_of_exact_location_orders()
    ensures networks { IsExactOrder network_cmp }
    ensures bodies { IsExactOrder body_cmp }
    ensures parts { IsExactOrder part_cmp }
    ensures junctions { IsExactOrder junction_cmp }
    ensures interiors { IsExactOrder junctions_cmp }
    ensures locations { IsExactOrder location_cmp }
{}

/// What the derived `Ord` of networks, bodies, parts and junctions computes is the order of the
/// definitions.
pub fn law_of_derived_order()
    ensures { IsDerivedOrder }
{}

/// Where location and target have a path at the context and the reanchoring succeeds: seen from the
/// target, the result has the path of the location, and it is normal where the location is normal and the
/// context has no `OnlyChild`. Two locations that are normal at one context and have one path there are one.
pub fn law_of_paths()
    ensures keeps_path { KeepsPath }
    ensures keeps_normal { KeepsNormal }
    ensures has_one_name { HasOneName }
{}
