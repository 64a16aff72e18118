// Laws of the definitions.
ghost use Rattle.site_file.specs.SiteLaws.{SitesComeBack};

/// What is written for a site that a document of either version says, says that site.
pub fn sites_come_back()
    ensures { SitesComeBack }
{}
